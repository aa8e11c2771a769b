// Laws of the definition, each as the contract of a function that does nothing.
ghost use Rattle.std.specs.Prelude.{◌≡◌, ℕ, List, Result, Err};
ghost use Rattle.carte_book.specs.Book.{Book};
ghost use Rattle.carte_book.specs.declared.fault.BookFault.{BookFault};
ghost use Rattle.carte_sheet.specs.Reading.{BookOf, sheet_in};
ghost use Rattle.carte_sheet.specs.Steps.{IsOfBytes};

/// Bytes are one book at most, or have one fault.
#[tactic(auto, using(crate::proofs::Unique::one_sheet))]
pub fn sheet_is_unique()
    ensures { (bytes : List ℕ) (r s : Result Book BookFault) → BookOf bytes r → BookOf bytes s → r ≡ s }
{}

/// Each list of bytes is a book or has a fault: what the function `sheet_in` gives.
#[tactic(auto, using(crate::proofs::Outcomes::sheet_some))]
pub fn sheet_some()
    ensures { (bytes : List ℕ) → BookOf bytes (sheet_in bytes) }
{}

/// The want of memory is never what bytes are, nor that in reading a formula.
#[tactic(auto, using(crate::proofs::Causes::of_bytes))]
pub fn fault_is_of_bytes()
    ensures { (bytes : List ℕ) (fault : BookFault) → BookOf bytes (Err fault) → IsOfBytes fault }
{}
