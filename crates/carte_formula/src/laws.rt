//! What is true of texts and formulas at large. Each law is the contract of a function that does nothing.
ghost use Rattle.std.specs.Prelude.{◌≡◌, ◌≤◌, ℕ, List, Result, Ok, length};
ghost use Rattle.carte_name.specs.declared.kind.Kind.{Kind};
ghost use Rattle.carte_tree.specs.Tree.{Tree};
ghost use Rattle.carte_tree.specs.Printed.{printed};
ghost use Rattle.carte_formula.specs.Reading.{FormulaFault};
ghost use Rattle.carte_formula.specs.Whole.{Reads, IsTold, SpelledBy, reading};

/// A text spells one formula at most.
pub fn spells_one()
    ensures { (q : Kind) (bytes : List ℕ) (d : Tree) (e : Tree) → SpelledBy q bytes d → SpelledBy q bytes e → d ≡ e }
{}

/// A text is read in one way at most, fault and place included; so `read` answers a formula or a fault exactly where the
/// text is read so, but for want of memory.
#[tactic(auto, using(crate::proofs::Round::one_reading))]
pub fn reads_one()
    ensures { (q : Kind) (bytes : List ℕ) (r : Result Tree FormulaFault) (s : Result Tree FormulaFault) → Reads q bytes r → Reads q bytes s → IsTold r → IsTold s → r ≡ s }
{}

/// Each text is read in some way: in that which the function `reading` gives.
pub fn reads_some()
    ensures reads { (q : Kind) (bytes : List ℕ) → Reads q bytes (reading q bytes) }
    ensures told { (q : Kind) (bytes : List ℕ) → IsTold (reading q bytes) }
{}

/// And it is read in no other way, so that what a text is read as is a function of its bytes.
#[tactic(auto, using(crate::proofs::Round::only_reading))]
pub fn reads_reading()
    ensures { (q : Kind) (bytes : List ℕ) (r : Result Tree FormulaFault) → Reads q bytes r → IsTold r → r ≡ reading q bytes }
{}

/// What is printed of a formula that a text is read as is read as this formula again, where it has at most 4,096 bytes.
pub fn reads_print()
    ensures { (q : Kind) (bytes : List ℕ) (e : Tree) → Reads q bytes (Ok e) → length (printed e) ≤ 4096 → Reads q (printed e) (Ok e) }
{}
