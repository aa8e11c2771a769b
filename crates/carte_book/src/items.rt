// What stands at a name, and what is new among names.
ghost use Rattle.std.specs.Prelude.{◌≡◌, None, Some, slice_get, option_map, OnOk, OnErr, IfErr, IfSome};
ghost use Rattle.indexmap.specs.IndexMap.{get, insert_entry, values, Updates};
ghost use Rattle.carte_name.specs.Names.{name_eq};
ghost use Rattle.carte_book.specs.Added.{IsUnfit};

use crate::book::Items;
use crate::{AddFault, Item};
use carte_value::Name;

/// The item at a name, with its place. The one that is the name's hint is tried first: nothing is hashed where the name stands
/// there.
pub(crate) fn find<'a>(items: &'a Items, name: &Name) -> Option<(usize, &'a Item)>
    ensures item { option_map (λ found. found.1.now) result ≡ get name_eq items.now name.now }
    ensures place { IfSome result (λ found. slice_get (values items.now) found.0 ≡ Some found.1.now) }
{
    let hint = name.hint();
    if let Some((held, item)) = items.get_index(hint) {
        if held == name {
            return Some((hint, item));
        }
    }
    match items.get_full(name) {
        Some((at, _, item)) => Some((at, item)),
        None => None,
    }
}

/// Puts an item at a name that isn't there, by one look.
pub(crate) fn put_new(items: &mut Items, name: Name, item: Item) -> Result<(), AddFault>
    ensures new { OnOk result (get name_eq items.old name ≡ None) }
    ensures updates { OnOk result (Updates name_eq items.old items.new name (Some item)) }
    ensures put { OnOk result (items.new.entries ≡ insert_entry name_eq items.old.entries name item) }
    ensures fault { IfErr result (IsUnfit items.old name) }
    ensures unchanged { OnErr result (items.new.entries ≡ items.old.entries) }
{
    let before = items.len();
    match items.entry(name) {
        Ok(entry) => {
            entry.or_insert(item);
        }
        Err(_) => return Err(AddFault::NoMemory),
    }
    if items.len() == before {
        Err(AddFault::Twice)
    } else {
        Ok(())
    }
}
