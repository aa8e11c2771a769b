ghost use Rattle.std.specs.Prelude.{◌≡◌, IfOk};
ghost use Rattle.carte_book.specs.Book.{book_view};
ghost use Rattle.carte_book.specs.Task.{task_now};
ghost use Rattle.carte_sound.specs.True.{or_none};
ghost use Rattle.carte_migrate.specs.Tasks.{KnowsTasks};

use carte_book::Book;
use carte_record::Entries;
use carte_value::{Digest, Name, NoMemory};
use std::alloc::Global;

/// Where the tasks of a book's keys are looked up: in entries that have them already, and else in the book.
#[derive(Clone, Copy)]
pub(crate) struct Tasks<'a> {
    pub(crate) book: &'a Book,
    pub(crate) entries: &'a Entries,
}

impl Tasks<'_> {
    /// The digest of a key's task.
    pub(crate) fn of(&self, alloc: Global, key: &Name) -> Result<Digest, NoMemory>
        requires { KnowsTasks (book_view self.now.book.now) self.now.entries.now }
        ensures { IfOk result (λ d. d ≡ or_none (task_now (book_view self.now.book.now) key.now)) }
    {
        match self.entries.find(key) {
            Some(entry) => Ok(entry.task),
            None => task_in(alloc, self.book, key),
        }
    }
}

/// The digest of a key's task. All that was kept is of rules: what is no rule has no task, and is refused as if there were
/// no memory.
pub(crate) fn task_in(alloc: Global, book: &Book, key: &Name) -> Result<Digest, NoMemory>
    ensures { IfOk result (λ d. d ≡ or_none (task_now (book_view book.now) key.now)) }
{
    match book.task_digest(alloc, key)? {
        Some(digest) => Ok(digest),
        None => Err(NoMemory),
    }
}
