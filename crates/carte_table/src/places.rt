ghost use Rattle.std.specs.Prelude.{◌≡◌, ◌++◌, ◌∷◌, [], IfOk, is_ok, if◌then◌else◌};
ghost use Rattle.carte_table.specs.KeyPlaces.{places_of};
ghost use Rattle.carte_table.specs.Changes.{front};

use carte_value::NoMemory;
use std::alloc::Global;
use std::slice;

/// The places of a key's traces, ascending. Most keys have one trace or two, whose places take no memory of their own; a
/// list of more is boxed, so that the places of each key take no more room than they need for two.
#[derive(Drop)]
pub enum Places {
    Gone,
    One(u32),
    Two([u32; 2]),
    Many(Box<Vec<u32>>),
}

impl Places {
    pub fn as_slice(&self) -> &[u32]
        ensures { result.now ≡ places_of self.now }
    {
        match self {
            Places::Gone => &[],
            Places::One(place) => slice::from_ref(place),
            Places::Two(places) => places.as_slice(),
            Places::Many(places) => places.as_slice(),
        }
    }

    /// One place more, behind the others.
    pub fn push(&mut self, alloc: Global, at: u32) -> Result<(), NoMemory>
        ensures { places_of self.new ≡ (if is_ok result then places_of self.old ++ at ∷ [] else places_of self.old) }
    {
        match self {
            Places::Gone => *self = Places::One(at),
            Places::One(first) => *self = Places::Two([*first, at]),
            Places::Two(both) => {
                let [first, second] = *both;
                *self = three(alloc, first, second, at)?;
            }
            Places::Many(places) => places.push(at)?,
        }
        Ok(())
    }

    /// Takes the last place out.
    pub fn pop(&mut self)
        ensures { places_of self.new ≡ front (places_of self.old) }
    {
        match self {
            Places::Gone => {}
            Places::One(_) => *self = Places::Gone,
            Places::Two(both) => {
                let [first, _] = *both;
                *self = Places::One(first);
            }
            Places::Many(places) => {
                places.pop();
            }
        }
    }
}

fn three(alloc: Global, first: u32, second: u32, third: u32) -> Result<Places, NoMemory>
    ensures { IfOk result (λ places. places_of places ≡ first ∷ second ∷ third ∷ []) }
{
    let mut all = Vec::with_capacity(alloc, 3)?;
    all.push(first)?;
    all.push(second)?;
    all.push(third)?;
    Ok(Places::Many(Box::new(alloc, all)?))
}
