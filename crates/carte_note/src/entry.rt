ghost use Rattle.std.specs.Prelude.{◌≡◌, IfOk, true, false, length};
ghost use Rattle.carte_record.specs.Kept.{is_fresh};
ghost use Rattle.carte_sound.specs.Left.{entry_eq, names_eq};
ghost use Rattle.carte_note.specs.Methods.{how_of};
ghost use Rattle.carte_note.specs.Writes.{brings_nothing, digest_made, entry_noted, names_in, stays_as};
ghost use Rattle.carte_record.specs.Lookups.{first_entry};
ghost use Rattle.carte_note.specs.Right.{key_of};

use crate::digests::Digests;
use crate::finished::{has_run, links_noted};
use crate::{Finished, Method};
use carte_record::{Entry, Kept};
use carte_value::{Link, Links, Name, Names, NoMemory};
use std::alloc::Global;

/// Whether the key brings nothing whatever is kept of it: it is held by marks alone.
pub(crate) fn brings_nothing(method: Method, finished: &Finished) -> bool
    ensures { result ≡ brings_nothing (how_of method) finished.now }
{
    method.is_dirty() && !has_run(&finished.made)
}

/// Whether the entry that is kept stays as it is.
pub(crate) fn stays_as(method: Method, kept: &Kept, finished: &Finished, digests: Digests) -> bool
    requires { digests.result ≡ digest_made finished.now }
    ensures { result ≡ stays_as (how_of method) (first_entry kept.now.entries (key_of finished.now)) (entry_noted (how_of method) digests.task finished.now) }
{
    match kept.entries.find(finished.made.key()) {
        Some(old) => (method.gathers_beneath() && is_fresh(old))
            || is_noted(old, method, finished, digests),
        None => false,
    }
}

fn is_fresh(entry: &Entry) -> bool
    ensures { result ≡ is_fresh entry.now }
{
    !entry.stale && !entry.shallow
}

/// Whether the entry is the one that is to be written. It takes no memory.
fn is_noted(old: &Entry, method: Method, finished: &Finished, digests: Digests) -> bool
    requires { digests.result ≡ digest_made finished.now }
    ensures { result ≡ entry_eq old.now (entry_noted (how_of method) digests.task finished.now) }
{
    ((old.key == *finished.made.key() && old.task == digests.task) && old.result == digests.result)
        && (same_names(&old.needs, links_noted(method, finished))
            && (!old.stale && old.shallow == method.gathers_beneath()))
}

/// Whether these are the names of the links.
fn same_names(names: &Names, links: &Links) -> bool
    ensures { result ≡ names_eq names.now (names_in links.now) }
{
    if names.len() != links.len() {
        return false;
    }
    all_same(names.as_slice(), links.as_slice())
}

fn all_same(names: &[Name], links: &[Link]) -> bool
    requires { length names.now ≡ length links.now }
    ensures { result ≡ names_eq names.now (names_in links.now) }
{
    for at in 0..names.len() {
        if names[at] != links[at].name {
            return false;
        }
    }
    true
}

/// The entry that is to be written.
pub(crate) fn entry(
    alloc: Global,
    method: Method,
    finished: &Finished,
    digests: Digests,
) -> Result<Entry, NoMemory>
    requires { digests.result ≡ digest_made finished.now }
    ensures { IfOk result (λ e. e ≡ entry_noted (how_of method) digests.task finished.now) }
{
    Ok(Entry {
        key: finished.made.key().copy(alloc)?,
        task: digests.task,
        result: digests.result,
        needs: names(alloc, links_noted(method, finished))?,
        stale: false,
        shallow: method.gathers_beneath(),
    })
}

fn names(alloc: Global, links: &Links) -> Result<Names, NoMemory>
    ensures { IfOk result (λ names. names ≡ names_in links.now) }
{
    let mut names = Names::with_room(alloc, links.len())?;
    for link in links.as_slice() {
        names.push(link.name.copy(alloc)?)?;
    }
    Ok(names)
}
