ghost use Rattle.std.specs.Prelude.{◌≡◌, ◌<◌, ◌^◌, ◌++◌, ◌∷◌, [], List, length, is_ok, IfOk, OnOk, if◌then◌else◌};
ghost use Rattle.std.specs.List.{flat_map};
ghost use Rattle.carte_value.specs.Lists.{Begins};
ghost use Rattle.carte_codec.specs.Each.{EachFits};
ghost use Rattle.carte_codec.specs.Parts.{spelled_list, FitsList, FitsMany};
ghost use Rattle.carte_codec.specs.Spellings.{IsRead};

use crate::count::{read_count, write_count};
use crate::{Spelled, Unread};
use carte_value::NoMemory;
use std::alloc::Global;

/// So many items get room before any is read, whatever bytes there are.
const FEW: usize = 16;

/// Beyond them, one item for so many bytes that are left: about what an entry or a trace takes. A count that is wrong then
/// takes little more memory than its bytes.
const BYTES_AN_ITEM: usize = 64;

/// A list that grows at its end, whatever it has beside its items.
pub trait ListOf<T>: Sized {
    ghost items: { Self → List T };

    /// The empty list, whose items will come from `alloc`. It may have room for so many at once.
    fn empty(alloc: Global, room: usize) -> Result<Self, NoMemory>
        ensures { IfOk result (λ list. items list ≡ []) };

    /// Puts an item behind the others. Where there is no room for it, it is dropped and nothing has changed.
    fn put(&mut self, item: T) -> Result<(), NoMemory>
        ensures { items self.new ≡ (if is_ok result then items self.old ++ item ∷ [] else items self.old) };

    /// The items, of which there are at most 2^32 - 1.
    fn all(&self) -> &[T]
        ensures items { result.now ≡ items self.now }
        ensures bound { length result.now < 2 ^ 32 };
}

/// Puts how many there are, and each in order, behind `out`. Where there is no memory, a part of it may stand there.
pub fn write_list<T: Spelled>(items: &[T], out: &mut Vec<u8>) -> Result<(), NoMemory>
    requires { length items.now < 2 ^ 32 }
    ensures bytes { OnOk result (out.new.items ≡ out.old.items ++ spelled_list T.spelling items.now) }
    ensures fits { OnOk result (EachFits T.may items.now → FitsList T.fits items.now) }
    ensures front { Begins out.old.items out.new.items }
{
    write_count(items.len(), out)?;
    write_items(items, out)
}

fn write_items<T: Spelled>(items: &[T], out: &mut Vec<u8>) -> Result<(), NoMemory>
    ensures bytes { OnOk result (out.new.items ≡ out.old.items ++ flat_map T.spelling items.now) }
    ensures fits { OnOk result (EachFits T.may items.now → EachFits T.fits items.now) }
    ensures front { Begins out.old.items out.new.items }
{
    for item in items {
        match item.write(out) {
            Ok(()) => {}
            Err(refused) => return Err(refused),
        }
    }
    Ok(())
}

/// The list that the bytes begin with, and the bytes behind it. It has no more room than it needs where it is short or its
/// items are long; else it takes memory as items come, whatever the count says.
pub fn read_list<T: Spelled + Drop, L: ListOf<T> + Drop>(
    alloc: Global,
    bytes: &[u8],
) -> Result<(L, &[u8]), Unread>
    ensures { IsRead (λ list. spelled_list T.spelling (L.items list)) (λ list. FitsList T.fits (L.items list)) (λ x. (x.0, x.1.now)) bytes.now result }
{
    let (count, rest) = read_count(bytes)?;
    read_items(alloc, count, rest)
}

/// So many items.
fn read_items<T: Spelled + Drop, L: ListOf<T> + Drop>(
    alloc: Global,
    count: usize,
    bytes: &[u8],
) -> Result<(L, &[u8]), Unread>
    ensures { IsRead (λ list. flat_map T.spelling (L.items list)) (λ list. FitsMany T.fits count (L.items list)) (λ x. (x.0, x.1.now)) bytes.now result }
{
    let mut list = L::empty(alloc, count.min(FEW.max(bytes.len() / BYTES_AN_ITEM)))?;
    let mut rest = bytes;
    for _at in 0..count {
        match T::read(alloc, rest) {
            Ok((item, after)) => {
                list.put(item)?;
                rest = after;
            }
            Err(unread) => return Err(unread),
        }
    }
    Ok((list, rest))
}
