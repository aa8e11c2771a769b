ghost use Rattle.std.specs.Prelude.{◌≡◌, map, IfOk};
ghost use Rattle.carte_book.specs.Book.{book_view};
ghost use Rattle.carte_sound_one.specs.Up.{raised_entry};

use crate::tasks::task_in;
use carte_book::Book;
use carte_record::{Entries, Entry};
use carte_record_one::{EntriesOne, EntryOne};
use carte_value::{NoMemory, Seeded};
use std::alloc::Global;

/// The entries with the tasks of their keys.
pub(crate) fn raised_entries(
    alloc: Global,
    entries: &EntriesOne,
    book: &Book,
    hasher: Seeded,
) -> Result<Entries, NoMemory>
    ensures { IfOk result (λ list. list ≡ map (raised_entry (book_view book.now)) entries.now) }
{
    let mut list = Entries::new(alloc, hasher);
    for entry in entries.as_slice() {
        list.push(raised_entry(alloc, entry, book)?)?;
    }
    Ok(list)
}

fn raised_entry(alloc: Global, entry: &EntryOne, book: &Book) -> Result<Entry, NoMemory>
    ensures { IfOk result (λ raised. raised ≡ raised_entry (book_view book.now) entry.now) }
{
    Ok(Entry {
        key: entry.key.copy(alloc)?,
        task: task_in(alloc, book, &entry.key)?,
        result: entry.result,
        needs: entry.needs.copy(alloc)?,
        stale: entry.stale,
        shallow: entry.shallow,
    })
}
