// The names that may stand on a path by the needs of entries.
ghost use Rattle.std.specs.Prelude.{◌≡◌, true, ℕ, List, IfOk, OnOk};
ghost use Rattle.std.specs.BTreeSet.{contains};
ghost use Rattle.carte_name.specs.Names.{name_cmp};
ghost use Rattle.carte_mark.specs.Marking.{PutsIf};
ghost use Rattle.carte_explain.specs.Nodes.{AddsAll, AreNodes, keys_in, names_in};

use carte_record::{Entry, Kept};
use carte_value::{Link, Name, NoMemory};
use std::alloc::Global;
use std::collections::BTreeSet;

/// The keys of the entries, and the names that were seen.
pub(crate) fn nodes(alloc: Global, kept: &Kept) -> Result<BTreeSet<Name>, NoMemory>
    ensures { IfOk result (AreNodes kept.now.entries kept.now.seen) }
{
    let mut nodes = BTreeSet::new(alloc);
    add_keys(alloc, kept.entries.as_slice(), &mut nodes)?;
    add_names(alloc, kept.seen.as_slice(), &mut nodes)?;
    Ok(nodes)
}

fn add_keys(alloc: Global, entries: &[Entry], nodes: &mut BTreeSet<Name>) -> Result<(), NoMemory>
    ensures { OnOk result (AddsAll nodes.old nodes.new (keys_in entries.now)) }
{
    for entry in entries {
        add(alloc, &entry.key, nodes)?;
    }
    Ok(())
}

fn add_names(alloc: Global, links: &[Link], nodes: &mut BTreeSet<Name>) -> Result<(), NoMemory>
    ensures { OnOk result (AddsAll nodes.old nodes.new (names_in links.now)) }
{
    for link in links {
        add(alloc, &link.name, nodes)?;
    }
    Ok(())
}

fn add(alloc: Global, name: &Name, nodes: &mut BTreeSet<Name>) -> Result<(), NoMemory>
    ensures { OnOk result (PutsIf true nodes.old nodes.new name.now) }
{
    let name = name.copy(alloc)?;
    match nodes.insert(name) {
        Ok(_) => Ok(()),
        Err(_) => Err(NoMemory),
    }
}
