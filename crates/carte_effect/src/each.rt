ghost use Rattle.std.specs.Prelude.{◌≡◌, None, false};
ghost use Rattle.carte_effect.specs.Effects.{SameStops};
ghost use Rattle.carte_effect.specs.Lists.{FetchedList, Listed, AskedEach};

use crate::{Answers, Effect, FetchList, Halt};
use carte_value::{Names, Values};
use std::alloc::Global;

/// Fetches one name after the other. It never withholds, and keeps no log of its own.
#[derive(Drop)]
pub struct Each<E> {
    effect: E,
}

impl<E: Effect> Each<E> {
    pub fn of(effect: E) -> Each<E>
        ensures { result.effect ≡ effect }
    {
        Each { effect }
    }
}

impl<E: Effect> FetchList for Each<E> {
    type Stop = E::Stop;

    ghost truth = { λ s. E.truth s.effect };

    ghost stops = { λ s. E.stops s.effect };

    ghost log = { λ s. None };

    ghost withholds = { false };

    fn fetch_list(&mut self, alloc: Global, names: &Names) -> Result<Answers, Halt<E::Stop>>
        ensures truth { E.truth self.new.effect ≡ E.truth self.old.effect }
        ensures stops { SameStops (E.stops self.old.effect) (E.stops self.new.effect) }
        ensures fetched { FetchedList (E.truth self.old.effect) (E.stops self.old.effect) false names.now result }
        ensures logged { Listed None None names.now result }
        // Of the effect that it holds each name is asked once, in order.
        ensures asked { AskedEach (E.log self.old.effect) (E.log self.new.effect) names.now result }
    {
        let mut values = Values::new(alloc);
        for name in names.as_slice() {
            match self.effect.fetch(alloc, name) {
                Ok(value) => values.push(value.into_value())?,
                Err(halt) => return Err(halt),
            }
        }
        Ok(Answers::Values(values))
    }
}
