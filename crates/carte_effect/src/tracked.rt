ghost use Rattle.std.specs.Prelude.{◌≡◌, length, Some, []};
ghost use Rattle.carte_effect.specs.Effects.{paired, Fetched, Logged, SameStops, AskedOnce};
ghost use Rattle.carte_effect.specs.Pairs.{Both};

use crate::{Effect, Halt, Hashed};
use carte_value::{Name, Names, NoMemory, Value, Values};
use std::alloc::Global;

/// Passes each fetch on, and lists the name and the value of each that was answered, in order, repeats too.
#[derive(Drop)]
pub struct Tracked<E> {
    effect: E,
    names: Names,
    values: Values,
    ghost same: { length names ≡ length values },
}

impl<E: Effect> Tracked<E> {
    /// Lists nothing so far. The lists' memory will come from `alloc`.
    pub fn of(alloc: Global, effect: E) -> Tracked<E>
        ensures effect { result.effect ≡ effect }
        ensures names { result.names ≡ [] }
        ensures values { result.values ≡ [] }
    {
        Tracked {
            effect,
            names: Names::new(alloc),
            values: Values::new(alloc),
        }
    }

    /// The names that were answered, in order.
    pub fn names(&self) -> &Names
        ensures { result.now ≡ self.now.names }
    {
        &self.names
    }

    /// The values that were answered for them.
    pub fn values(&self) -> &Values
        ensures value { result.now ≡ self.now.values }
        ensures len { length result.now ≡ length self.now.names }
    {
        &self.values
    }
}

// Lists a name and a value, or nothing.
fn list(names: &mut Names, values: &mut Values, name: Name, value: Value) -> Result<(), NoMemory>
    ensures { Both result names.old names.new values.old values.new name value }
{
    let len = names.len();
    names.push(name)?;
    if let Err(refused) = values.push(value) {
        names.truncate(len);
        return Err(refused);
    }
    Ok(())
}

impl<E: Effect> Effect for Tracked<E> {
    type Stop = E::Stop;

    ghost truth = { λ s. E.truth s.effect };

    ghost stops = { λ s. E.stops s.effect };

    ghost log = { λ s. Some (paired s.names s.values) };

    fn fetch(&mut self, alloc: Global, name: &Name) -> Result<Hashed, Halt<E::Stop>>
        ensures truth { E.truth self.new.effect ≡ E.truth self.old.effect }
        ensures stops { SameStops (E.stops self.old.effect) (E.stops self.new.effect) }
        ensures fetched { Fetched (E.truth self.old.effect) (E.stops self.old.effect) name.now result }
        ensures logged { Logged (Some (paired self.old.names self.old.values)) (Some (paired self.new.names self.new.values)) name.now result }
        // The effect that it holds is asked for this name, once.
        ensures asked { AskedOnce (E.log self.old.effect) (E.log self.new.effect) name.now result }
    {
        let listed = name.copy(alloc)?;
        let value = match self.effect.fetch(alloc, name) {
            Ok(value) => value,
            Err(halt) => return Err(halt),
        };
        let copy = value.value().copy(alloc)?;
        list(&mut self.names, &mut self.values, listed, copy)?;
        Ok(value)
    }
}
