ghost use Rattle.std.specs.Prelude.{◌≡◌, IfOk, IfErr};
ghost use Rattle.std.specs.FinMap.{empty};
ghost use Rattle.carte_book.specs.Book.{book_view};
ghost use Rattle.carte_book.specs.declared.fault.BookFault.TheVariants.{NoMemory as BookNoMemory};
ghost use Rattle.carte_sheet.specs.Drafts.{Holds};
ghost use Rattle.carte_sheet.specs.Reading.{Content, book_of};
ghost use Rattle.carte_sheet.specs.Steps.{Gives};

use crate::draft::Draft;
use carte_book::{Book, BookFault};
use carte_value::{Kind, Seeded};
use std::alloc::Global;

impl Draft {
    /// A draft without keys, with room for so many.
    pub(crate) fn new(alloc: Global, keys: usize, hasher: Seeded) -> Result<Draft, BookFault>
        ensures draft { IfOk result (λ d. Holds d empty) }
        ensures fault { IfErr result (λ fault. fault ≡ BookNoMemory) }
    {
        match carte_book::Draft::new(alloc, Kind::Sheet, keys, hasher) {
            Ok(keys) => Ok(Draft { keys }),
            Err(fault) => Err(fault),
        }
    }

    /// The book, where it could take all keys.
    #[tactic(auto, using(crate::proofs::Drafts::gives))]
    pub(crate) fn finish(self) -> Result<Book, BookFault>
        ensures { (m : Content) → Holds self m → Gives book_view (book_of m) result }
    {
        self.keys.finish()
    }
}
