ghost use Rattle.std.specs.Prelude.{◌≡◌, ◌<◌, ◌^◌, ◌++◌, ◌∷◌, [], ◌==◌, length, is_ok, IfOk, if◌then◌else◌};
ghost use Rattle.carte_codec.specs.Each.{EachFits};
ghost use Rattle.carte_codec.specs.Parts.{spelled_list, FitsList};
ghost use Rattle.carte_codec.specs.Laws.{list_one};

use crate::table::{MOST, make_place, make_room};
use carte_codec::{ListOf, Spelled, Unread, read_list, write_list};
use carte_value::{NoMemory, Same};
use std::alloc::Global;
use std::marker::Model;

/// A list with no table beside it: at most 2^32 - 1 items, seen as these items. So lists are as their bytes have them, and
/// those in which nothing is looked up, since they are put into others.
#[derive(Drop)]
pub struct Plain<T> {
    items: Vec<T>,
}

impl<T> Model for Plain<T> {
    ghost use Rattle.std.specs.Prelude.{ℕ, ◌<◌, ◌^◌, List, length};
    ghost use Rattle.std.specs.Coded.{coded_list};

    ghost Value = { List T };

    ghost coded = { coded_list T.code };

    ghost view = { λ a. a.items.items };

    ghost invariant = { λ a. length a.items.items < 2 ^ 32 };
}

impl<T: Drop> Plain<T> {
    /// The empty list, whose items will come from `alloc`. It takes no memory.
    pub fn new(alloc: Global) -> Plain<T>
        ensures { result ≡ [] }
    {
        Plain {
            items: Vec::new(alloc),
        }
    }

    /// The items.
    pub fn into_items(self) -> Vec<T>
        ensures items { result.items ≡ self }
        ensures bound { length result.items < 2 ^ 32 }
    {
        self.items
    }

    /// How many items there are.
    pub fn len(&self) -> usize
        ensures number { result ≡ length self.now }
        ensures bound { result < 2 ^ 32 }
    {
        self.items.len()
    }

    pub fn is_empty(&self) -> bool
        ensures { result ≡ (length self.now == 0) }
    {
        self.items.is_empty()
    }

    /// The items as a slice.
    pub fn as_slice(&self) -> &[T]
        ensures { result.now ≡ self.now }
    {
        self.items.as_slice()
    }

    /// Room for so many items more at once, where it has few beside these.
    pub fn widen(&mut self, more: usize)
        ensures { self.new ≡ self.old }
    {
        make_room(&mut self.items, more);
    }

    /// Puts an item behind the others. Where there is no room for it, it is dropped and nothing has changed.
    pub fn push(&mut self, item: T) -> Result<(), NoMemory>
        ensures { self.new ≡ (if is_ok result then self.old ++ item ∷ [] else self.old) }
    {
        if self.items.len() >= MOST {
            return Err(NoMemory);
        }
        make_place(&mut self.items)?;
        self.items.push_reserved(item);
        Ok(())
    }
}

impl<T: Same + Drop> Plain<T> {
    /// A second list of equal items.
    pub fn copy(&self, alloc: Global) -> Result<Plain<T>, NoMemory>
        ensures { IfOk result (λ copy. copy ≡ self.now) }
    {
        let mut list = Plain::new(alloc);
        list.widen(self.len());
        for item in self.items.iter() {
            list.push(item.same(alloc)?)?;
        }
        Ok(list)
    }
}

impl<T: Drop> ListOf<T> for Plain<T> {
    ghost items = { λ items. items };

    fn empty(alloc: Global, room: usize) -> Result<Plain<T>, NoMemory> {
        let items = Vec::with_capacity(alloc, room)?;
        Ok(Plain { items })
    }

    fn put(&mut self, item: T) -> Result<(), NoMemory> {
        if self.items.len() >= MOST {
            return Err(NoMemory);
        }
        self.items.push(item)?;
        Ok(())
    }

    fn all(&self) -> &[T] {
        self.items.as_slice()
    }
}

/// How many there are, and each in order. A count isn't believed before its items are there, so what was read has room
/// by the bytes that follow, and more as items come; at the end it gives back what it doesn't need.
impl<T: Spelled + Drop> Spelled for Plain<T> {
    ghost spelling = { spelled_list T.spelling };

    ghost fits = { FitsList T.fits };

    ghost may = { EachFits T.may };

    fn write(&self, out: &mut Vec<u8>) -> Result<(), NoMemory> {
        write_list(self.all(), out)
    }

    fn read(alloc: Global, bytes: &[u8]) -> Result<(Plain<T>, &[u8]), Unread> {
        let (mut list, rest): (Plain<T>, &[u8]) = read_list(alloc, bytes)?;
        list.items.shrink_to_fit();
        Ok((list, rest))
    }

    ghost one_spelling = { list_one T.one_spelling };
}
