// What the lists have of names that are given in order.
ghost use Rattle.std.specs.Prelude.{◌≡◌, ◌++◌, [], false, IfOk, OnOk};
ghost use Rattle.carte_record.specs.Lookups.{first_entry};
ghost use Rattle.carte_record.specs.Marked.{marked_as};
ghost use Rattle.carte_compact.specs.Live.{entry_at, found_at, is_stale, link_at, put, stale_at};

use carte_record::{Entries, Entry, Plain, Seen};
use carte_value::{Link, Name, Names, NoMemory, Same, Seeded};
use std::alloc::Global;

/// The first link of each of these names.
pub(crate) fn links_at(
    alloc: Global,
    seen: &Seen,
    names: &[Name],
    hasher: Seeded,
) -> Result<Seen, NoMemory>
    ensures { IfOk result (λ links. links ≡ found_at (link_at seen.now) names.now) }
{
    let mut links = Seen::new(alloc, hasher);
    for name in names {
        put_link(alloc, seen, name, &mut links)?;
    }
    Ok(links)
}

fn put_link(alloc: Global, seen: &Seen, name: &Name, links: &mut Seen) -> Result<(), NoMemory>
    ensures { OnOk result (links.new ≡ links.old ++ put (link_at seen.now name.now) []) }
{
    if let Some(digest) = seen.find(name) {
        links.push(Link {
            name: name.copy(alloc)?,
            digest: *digest,
        })?;
    }
    Ok(())
}

/// The first entry of each of these keys, without its mark.
pub(crate) fn entries_at(
    alloc: Global,
    entries: &Entries,
    keys: &[Name],
) -> Result<Plain<Entry>, NoMemory>
    ensures { IfOk result (λ list. list ≡ found_at (entry_at entries.now) keys.now) }
{
    let mut list = Plain::new(alloc);
    for key in keys {
        put_entry(alloc, entries, key, &mut list)?;
    }
    Ok(list)
}

fn put_entry(
    alloc: Global,
    entries: &Entries,
    key: &Name,
    list: &mut Plain<Entry>,
) -> Result<(), NoMemory>
    ensures { OnOk result (list.new ≡ list.old ++ put (entry_at entries.now key.now) []) }
{
    if let Some(entry) = entries.find(key) {
        list.push(unmarked(alloc, entry)?)?;
    }
    Ok(())
}

fn unmarked(alloc: Global, entry: &Entry) -> Result<Entry, NoMemory>
    ensures { IfOk result (λ copy. copy ≡ marked_as false entry.now) }
{
    let mut copy = entry.same(alloc)?;
    copy.stale = false;
    Ok(copy)
}

/// Those of these keys whose first entry is stale.
pub(crate) fn stale_at(alloc: Global, entries: &Entries, keys: &[Name]) -> Result<Names, NoMemory>
    ensures { IfOk result (λ stale. stale ≡ stale_at entries.now keys.now) }
{
    let mut stale = Names::new(alloc);
    for key in keys {
        if is_stale(entries, key) {
            stale.push(key.copy(alloc)?)?;
        }
    }
    Ok(stale)
}

fn is_stale(entries: &Entries, key: &Name) -> bool
    ensures { result ≡ is_stale (first_entry entries.now key.now) }
{
    match entries.find(key) {
        Some(entry) => entry.stale,
        None => false,
    }
}
