ghost use Rattle.std.specs.Prelude.{◌≡◌, ℕ, List, Option, Bool};
ghost use Rattle.carte_value.specs.declared.value.Value.{Value as SomeValue};
ghost use Rattle.carte_effect.specs.Effects.{SameStops};
ghost use Rattle.carte_effect.specs.Lists.{FetchedList, Listed};

use crate::Halt;
use carte_value::{Names, Values};
use std::alloc::Global;

/// What was answered for a list of names: a value for each, or that values are not given here.
#[derive(Debug, Drop)]
pub enum Answers {
    Values(Values),
    Withheld,
}

/// Who answers for the values of many names at once.
pub trait FetchList {
    type Stop;

    /// What each name has, where it has something.
    ghost truth: { Self → List ℕ → Option SomeValue };

    /// Which stops may come at a name without a value.
    ghost stops: { Self → List ℕ → Self.Stop → Type 0 };

    /// The names asked for so far, in order, where they are kept.
    ghost log: { Self → Option (List (List ℕ)) };

    /// Whether values are withheld, always, or never.
    ghost withholds: { Bool };

    fn fetch_list(&mut self, alloc: Global, names: &Names) -> Result<Answers, Halt<Self::Stop>>
        ensures truth { truth self.new ≡ truth self.old }
        ensures stops { SameStops (stops self.old) (stops self.new) }
        ensures fetched { FetchedList (truth self.old) (stops self.old) withholds names.now result }
        ensures logged { Listed (log self.old) (log self.new) names.now result };
}
