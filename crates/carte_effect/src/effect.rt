ghost use Rattle.std.specs.Prelude.{◌≡◌, ℕ, List, Option};
ghost use Rattle.carte_value.specs.declared.value.Value.{Value as SomeValue};
ghost use Rattle.carte_value.specs.Once.{Answers};
ghost use Rattle.carte_effect.specs.Effects.{Fetched, Logged, SameStops};

use crate::Hashed;
use carte_value::{Name, NoMemory};
use std::alloc::Global;

/// Why a fetch or a drive came to no answer.
#[derive(Debug, Drop)]
pub enum Halt<S> {
    /// The effect stopped it, with a stop of its own.
    Stop(S),
    NoMemory,
}

impl<S> From<NoMemory> for Halt<S> {
    ghost use Rattle.carte_effect.specs.declared.effect.Halt.TheVariants.{NoMemory as OutOfMemory};

    ghost from_gives = { λ _ halt. halt ≡ OutOfMemory };

    fn from(_refused: NoMemory) -> Halt<S> {
        Halt::NoMemory
    }
}

/// Who answers for the values of names. A fetch never changes what a name has.
pub trait Effect {
    type Stop;

    /// What each name has, where it has something.
    ghost truth: { Self → List ℕ → Option SomeValue };

    /// Which stops may come at a name without a value.
    ghost stops: { Self → List ℕ → Self.Stop → Type 0 };

    /// The names and values answered so far, in order, where the effect keeps them.
    ghost log: { Self → Option Answers };

    fn fetch(&mut self, alloc: Global, name: &Name) -> Result<Hashed, Halt<Self::Stop>>
        ensures truth { truth self.new ≡ truth self.old }
        ensures stops { SameStops (stops self.old) (stops self.new) }
        ensures fetched { Fetched (truth self.old) (stops self.old) name.now result }
        ensures logged { Logged (log self.old) (log self.new) name.now result };
}
