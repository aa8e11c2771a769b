ghost use Rattle.carte_book.specs.Book.{book_view};
ghost use Rattle.carte_book.specs.Needs.{NeedsAreNames};

use crate::Book;

/// What the rules of a book look up are names of its kind. It does nothing: the contract is a law.
#[tactic(auto, using(crate::proofs::Named::needs_named))]
pub fn needs_are_names(book: &Book)
    ensures { NeedsAreNames (book_view book.now) }
{}
