ghost use Rattle.std.specs.Prelude.{◌≡◌, OnOk, OnErr};
ghost use Rattle.carte_book.specs.Book.{book_view};
ghost use Rattle.carte_progress.specs.Opening.{EndsKey};

use carte_book::Book;
use carte_effect::Made;
use carte_rebuild::{Rebuilder, Work, finish};
use carte_value::NoMemory;
use std::alloc::Global;

/// Finishes a key that was made, behind those that are finished. Where there is no memory, nothing has changed.
pub fn finish_made<R: Rebuilder>(
    alloc: Global,
    rebuilder: &R,
    book: &Book,
    work: &mut Work,
    made: Made,
) -> Result<(), NoMemory>
    ensures ends { OnOk result (EndsKey (R.how rebuilder.now) (book_view book.now) work.old.finished work.new.finished made) }
    ensures refused { OnErr result (work.new.finished ≡ work.old.finished) }
    ensures runs { work.new.runs ≡ work.old.runs }
    ensures chain { work.new.chain ≡ work.old.chain }
{
    let finished = finish(alloc, rebuilder, book, &work.finished, made)?;
    work.finished.push(finished)
}
