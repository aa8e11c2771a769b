// Laws of every order of steps, over jobs of any kind, each as the contract of a function that does nothing.
ghost use Rattle.std.specs.Prelude.{◌≡◌, ℕ, List, [], ◌∷◌, Option, Some};
ghost use Rattle.carte_book.specs.Reason.{IsReason};
ghost use Rattle.carte_book.specs.declared.reason.Reason.{Reason as SomeReason};
ghost use Rattle.carte_bench.specs.Held.{spots_of, book_of};
ghost use Rattle.carte_bench.specs.Waits.{onward, WaitsAs};
ghost use Rattle.carte_bench.specs.Ended.{IsOpen, HasEnded, HasReason};
ghost use Rattle.carte_book.specs.Book.{Book as SomeBook};
ghost use Rattle.carte_effect.specs.declared.outcome.Made.{Made as SomeMade};
ghost use Rattle.carte_bench.specs.declared.slot.Slot.TheVariants.{Done};
ghost use Rattle.carte_effect.specs.Ledger.{Ledger};
ghost use Rattle.carte_bench.specs.Spots.{Spots, AreNamed};
ghost use Rattle.carte_bench.specs.Steps.{State, Steps, Comes, IsCore};
ghost use Rattle.carte_bench.specs.Keys.{AreKeyed};
ghost use Rattle.carte_bench.specs.Turns.{Turned};

use crate::Bench;
use carte_effect::Job;

/// After every order of steps from an empty bench, each over any part of what is done, what is done is clean, jobs fit,
/// and what has stopped waits for a need.
pub fn every_schedule<J: Job + Drop>()
    ensures { (b : SomeBook) (s : State J) → Comes J.name J.fits J.gives b s → IsCore J.fits b s.spots }
{}

/// What is done stays as it is: no rule is done twice.
pub fn done_once<J: Job + Drop>()
    ensures { (b : SomeBook) (s d : State J) (k : List ℕ) (m : SomeMade) → Steps J.name J.fits J.gives b s d → s.spots k ≡ Some (Done m) → d.spots k ≡ Some (Done m) }
{}

/// A turn keeps what holds after every order of steps, and that each job stands at its name. Whatever the jobs are driven
/// over, what is done has the name at which it stands as its key.
pub fn turn_keeps<J: Job + Drop>()
    ensures core { (b : SomeBook) (old new : Spots J) (r t : Ledger) (k : List ℕ) (m : Option SomeMade) → Turned J.name J.started J.gives b old new r t k m → IsCore J.fits b old → IsCore J.fits b new }
    ensures names { (b : SomeBook) (old new : Spots J) (r t : Ledger) (k : List ℕ) (m : Option SomeMade) → Turned J.name J.started J.gives b old new r t k m → AreNamed J.name old → AreNamed J.name new }
    ensures keys { (b : SomeBook) (old new : Spots J) (r t : Ledger) (k : List ℕ) (m : Option SomeMade) → Turned J.name J.started J.gives b old new r t k m → AreKeyed J.keyed old → AreKeyed J.keyed new }
{}

/// Over jobs that fit, a path of waits from a target is why the target has no value.
pub fn reason_is<J: Job + Drop>()
    ensures { (b : SomeBook) (s : Spots J) (t : List ℕ) (r : SomeReason) → IsCore J.fits b s → WaitsAs (onward b s) t (Some r) → IsReason b (t ∷ []) r }
{}

/// Where nothing is ready or out, and each rule that is waited for was demanded, each demanded rule that isn't done has
/// such a path.
pub fn ended_has_reason<J: Job + Drop>(bench: &Bench<'_, J>)
    ensures { IsCore J.fits (book_of bench.now) (spots_of bench.now) → HasEnded (book_of bench.now) (spots_of bench.now)
        → (k : List ℕ) → IsOpen (spots_of bench.now) k → HasReason (onward (book_of bench.now) (spots_of bench.now)) k }
{}
