// Names in name order, each once.
ghost use Rattle.std.specs.Prelude.{IfOk};
ghost use Rattle.carte_value.specs.Truths.{Among, IsListOf};
ghost use Rattle.carte_compact.specs.Live.{keys_of, names_of};

use carte_record::{Entries, Seen};
use carte_value::{Name, NoMemory};
use std::alloc::Global;

/// The names that were seen.
pub(crate) fn seen_names(alloc: Global, seen: &Seen) -> Result<Vec<Name>, NoMemory>
    ensures { IfOk result (λ names. IsListOf (Among (names_of seen.now)) names.items) }
{
    let mut names = Vec::with_capacity(alloc, seen.len())?;
    for link in seen.as_slice() {
        names.push(link.name.copy(alloc)?)?;
    }
    Ok(in_order(names))
}

/// The keys that have an entry.
pub(crate) fn entry_keys(alloc: Global, entries: &Entries) -> Result<Vec<Name>, NoMemory>
    ensures { IfOk result (λ keys. IsListOf (Among (keys_of entries.now)) keys.items) }
{
    let mut keys = Vec::with_capacity(alloc, entries.len())?;
    for entry in entries.as_slice() {
        keys.push(entry.key.copy(alloc)?)?;
    }
    Ok(in_order(keys))
}

fn in_order(names: Vec<Name>) -> Vec<Name>
    ensures { IsListOf (Among names.items) result.items }
{
    let mut names = names;
    names.sort_unstable();
    names.dedup();
    names
}
