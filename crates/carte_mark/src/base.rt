ghost use Rattle.std.specs.Prelude.{IfOk};
ghost use Rattle.carte_book.specs.Book.{book_view};
ghost use Rattle.carte_record.specs.Kept.{kept_view};
ghost use Rattle.carte_mark.specs.Bases.{IsBegun};

use crate::changed::changed;
use crate::gone::gone;
use crate::marking::marks_over;
use carte_book::Book;
use carte_record::Kept;
use carte_value::{Names, NoMemory};
use std::alloc::Global;

/// What a build begins with: what is kept with these marks, and without what is kept of these names.
#[derive(Drop)]
pub struct Begun {
    /// The keys that are to be marked, in name order.
    pub marks: Names,
    /// The names that became something else, in name order: seen ones that are no inputs any more, and keys of entries that
    /// are no rules.
    pub gone: Names,
}

/// Finds what is to be marked, and what is to be dropped.
#[tactic(auto, using(crate::proofs::Beginning::is_begun))]
pub fn begin(alloc: Global, kept: &Kept, book: &Book) -> Result<Begun, NoMemory>
    ensures { IfOk result (IsBegun (kept_view kept.now) (book_view book.now)) }
{
    let changed = changed(alloc, kept, book)?;
    let gone = gone(alloc, kept, book, &changed)?;
    let marks = marks_over(alloc, kept, changed)?;
    Ok(Begun { marks, gone })
}
