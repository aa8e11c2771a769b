ghost use Rattle.std.specs.Prelude.{◌≡◌, IfOk, IfSome};
ghost use Rattle.carte_book.specs.Book.{book_view};
ghost use Rattle.carte_book.specs.Task.{task_now};
ghost use Rattle.carte_sound.specs.True.{or_none};
ghost use Rattle.carte_note.specs.Writes.{digest_made, task_made};

use crate::Finished;
use carte_book::Book;
use carte_value::{Digest, Name, NoMemory};
use std::alloc::Global;

/// What a finished key's entry and trace name: the digest of its value and that of its task.
#[derive(Clone, Copy)]
pub(crate) struct Digests {
    pub result: Digest,
    pub task: Digest,
}

impl Digests {
    /// That of the value is taken already; that of the task is the one that is handed in, or else the book's.
    pub(crate) fn of(
        alloc: Global,
        task: Option<Digest>,
        book: &Book,
        finished: &Finished,
    ) -> Result<Digests, NoMemory>
        requires { IfSome task (λ d. d ≡ task_made (book_view book.now) finished.now) }
        ensures made { IfOk result (λ d. d.result ≡ digest_made finished.now) }
        ensures task { IfOk result (λ d. d.task ≡ task_made (book_view book.now) finished.now) }
    {
        let task = match task {
            Some(digest) => digest,
            None => task_of(alloc, book, finished.made.key())?,
        };
        Ok(Digests {
            result: finished.made.hashed().digest(),
            task,
        })
    }
}

// No build finishes a key that is no rule of its book: such a one has no task, and is refused as if there were no memory.
fn task_of(alloc: Global, book: &Book, key: &Name) -> Result<Digest, NoMemory>
    ensures { IfOk result (λ d. d ≡ or_none (task_now (book_view book.now) key.now)) }
{
    match book.task_digest(alloc, key)? {
        Some(digest) => Ok(digest),
        None => Err(NoMemory),
    }
}
