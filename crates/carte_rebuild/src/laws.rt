//! What follows from the laws of a rebuilder alone. Each law is what a function of no use but this ensures.

ghost use Rattle.std.specs.Prelude.{ℕ, List};
ghost use Rattle.carte_value.specs.Truths.{Truth};
ghost use Rattle.carte_effect.specs.Jobs.{Step};
ghost use Rattle.carte_book.specs.Book.{Book as SomeBook};
ghost use Rattle.carte_record.specs.Kept.{SomeKept};
ghost use Rattle.carte_sound.specs.Base.{IsBase};
ghost use Rattle.carte_rebuild.specs.Goes.{GoesOver};
ghost use Rattle.carte_rebuild.specs.Drives.{Driven};

use crate::Rebuilder;

/// However often a job is driven, over parts of the clean values that grow, the last drive makes what is right, or the job
/// can go on: so each value that a schedule makes is clean, and a key runs exactly where it isn't held.
pub fn driven_right<R: Rebuilder>()
    ensures { (r : R) (K : SomeKept) (b : SomeBook) (H : List SomeBook) (k : List ℕ) (t u : Truth) (p q : R.Job) (step : Step) → IsBase K b H → R.begun r K b t k p → Driven R.Job.gives b t p u step q → GoesOver (R.how r) K b k u (λ w j. R.begun r K b w k j) step q }
{}
