ghost use Rattle.std.specs.Prelude.{◌≡◌, ℕ, List, Option, Bool, true};
ghost use Rattle.carte_value.specs.declared.value.Value.{Value as SomeValue};
ghost use Rattle.carte_value.specs.Truths.{Truth, Extends};
ghost use Rattle.carte_effect.specs.Effects.{SameStops};
ghost use Rattle.carte_value.specs.Once.{Answers};
ghost use Rattle.carte_effect.specs.Jobs.{Step, Gave, Counted, DriveFits, StepKeyed};

use crate::{Effect, Halt, Made, Runs};
use carte_value::Name;
use std::alloc::Global;

/// What makes the value of a key: by running its task, or by finding that an earlier end of it still holds.
pub trait Job {
    /// The key.
    ghost name: { Self → List ℕ };

    /// Whether its task was started.
    ghost started: { Self → Bool };

    /// What a drive over a truth may come to by some further answers, and the job after it.
    ghost gives: { Self → Truth → Answers → Step → Self → Type 0 };

    /// It is a job for this key over this truth, in which the key may have a value. It stops only at the first names, its needs, and asks only for the second.
    ghost fits: { Self → Truth → List ℕ → Option SomeValue → List (List ℕ) → List (List ℕ) → Type 0 };

    /// Whatever it comes to has this key, over any truth.
    ghost keyed: { Self → List ℕ → Type 0 };

    fn key(&self) -> &Name
        ensures { result.now ≡ name self.now };

    /// Goes on to the end, or to a name without a value.
    fn drive<E: Effect>(
        &mut self,
        alloc: Global,
        effect: &mut E,
        runs: &mut Runs,
    ) -> Result<Made, Halt<E::Stop>>
        ensures truth { E.truth effect.new ≡ E.truth effect.old }
        ensures stops { SameStops (E.stops effect.old) (E.stops effect.new) }
        ensures name { name self.new ≡ name self.old }
        ensures gave { Gave gives (E.truth effect.old) (E.stops effect.old) (E.log effect.old) (E.log effect.new) self.old self.new result }
        ensures counted { Counted (name self.old) (started self.old) (started self.new) runs.old runs.new result };

    /// Over any part of its truth a job that fits asks only for what it may ask for. It ends with its key and value, and where its task ran with its needs as links; or it stops at a need that the part lacks, or has no memory, and fits on.
    ghost fits_on: { (p : Self) (t part : Truth) (k : List ℕ) (v : Option SomeValue) (needs asks : List (List ℕ)) (further : Answers) (step : Step) (q : Self) → fits p t k v needs asks → Extends part t → gives p part further step q → DriveFits fits t k v needs asks part further step q };

    /// Over whatever truth a job of a key is driven, it comes to something with this key, or goes on as a job of it.
    ghost keyed_on: { (p : Self) (t : Truth) (k : List ℕ) (further : Answers) (step : Step) (q : Self) → keyed p k → gives p t further step q → StepKeyed keyed k step q };
}
