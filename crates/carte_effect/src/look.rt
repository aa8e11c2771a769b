ghost use Rattle.std.specs.Prelude.{◌≡◌, ℕ, List, None};
ghost use Rattle.carte_effect.specs.Sights.{Sight, Sees, value_seen, IsStuck};

use crate::{Digests, Effect, Halt, Hashed};
use carte_value::{Name, Value};
use std::alloc::Global;

/// What a look sees of a name.
pub enum Seen<'a> {
    Value(&'a Value),
    /// A value that a job made.
    Made(&'a Hashed),
    /// It will have a value once its task has ended. The number is written into the name of whoever stops there, as its hint.
    NotDone(usize),
    /// It has no task and no value.
    Missing,
}

/// Values that stand while others look at them.
pub trait Look {
    ghost sight: { Self → List ℕ → Sight };

    fn look(&self, name: &Name) -> Seen<'_>
        ensures { Sees result (sight self.now name.now) };
}

/// The name at which a fetch stopped, and why.
#[derive(Debug, Drop)]
pub enum Stuck {
    NotDone(Name),
    Missing(Name),
}

/// Answers from a look, and stops where it shows no value. It keeps no log.
#[derive(Drop)]
pub struct Snapshot<'a, L> {
    look: &'a L,
    digests: Option<&'a mut Digests>,
}

impl<'a, L: Look> Snapshot<'a, L> {
    pub fn of(look: &'a L) -> Snapshot<'a, L>
        ensures { result.look.now ≡ look.now }
    {
        Snapshot {
            look,
            digests: None,
        }
    }

    /// The same, where a value that no job made comes with its digest.
    pub fn with(look: &'a L, digests: &'a mut Digests) -> Snapshot<'a, L>
        ensures { result.look.now ≡ look.now }
    {
        Snapshot {
            look,
            digests: Some(digests),
        }
    }
}

impl<'a, L: Look> Effect for Snapshot<'a, L> {
    type Stop = Stuck;

    ghost truth = { λ s k. value_seen (L.sight s.look.now k) };

    ghost stops = { λ s k stuck. IsStuck (L.sight s.look.now k) k stuck };

    ghost log = { λ s. None };

    #[inline(always)]
    fn fetch(&mut self, alloc: Global, name: &Name) -> Result<Hashed, Halt<Stuck>> {
        match self.look.look(name) {
            Seen::Value(value) => {
                let value = value.copy(alloc)?;
                Ok(match &mut self.digests {
                    Some(digests) => digests.hashed_at(name, value),
                    None => Hashed::unhashed(value),
                })
            }
            Seen::Made(value) => Ok(value.copy(alloc)?),
            Seen::NotDone(hint) => {
                Err(Halt::Stop(Stuck::NotDone(name.copy(alloc)?.hinted(hint))))
            }
            Seen::Missing => Err(Halt::Stop(Stuck::Missing(name.copy(alloc)?))),
        }
    }
}
