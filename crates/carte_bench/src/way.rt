ghost use Rattle.std.specs.Prelude.{◌≡◌, ◌++◌, ◌∷◌, [], false, IfOk, OnOk};
ghost use Rattle.carte_bench.specs.Waits.{has};

use carte_value::{Name, Names, NoMemory, Seeded};
use indexmap::IndexSet;
use std::alloc::Global;
use std::mem;

/// Where a name leads on: it has nothing, it waits for no other, or for this one.
pub(crate) enum Onward<'a> {
    Gone,
    Ends,
    WaitsFor(&'a Name),
}

/// How a way goes on.
pub(crate) enum Course {
    On,
    Ends,
    Round,
    Astray,
}

/// The names from a target on, each of which waits for the next, and the one that the last of them waits for.
#[derive(Drop)]
pub(crate) struct Way {
    pub(crate) names: IndexSet<Name, Seeded>,
    pub(crate) at: Name,
}

impl Way {
    pub(crate) fn of(alloc: Global, target: &Name, hasher: Seeded) -> Result<Way, NoMemory>
        ensures names { IfOk result (λ w. w.names.keys ≡ []) }
        ensures at { IfOk result (λ w. w.at ≡ target.now) }
    {
        Ok(Way {
            names: IndexSet::with_hasher(alloc, hasher),
            at: target.copy(alloc)?,
        })
    }

    /// Whether its last name stands on it before.
    pub(crate) fn is_round(&self) -> bool
        ensures { result ≡ has self.now.names.keys self.now.at }
    {
        self.names.contains(&self.at)
    }

    pub(crate) fn go(&mut self, next: Name) -> Result<(), NoMemory>
        requires { has self.old.names.keys self.old.at ≡ false }
        ensures names { OnOk result (self.new.names.keys ≡ self.old.names.keys ++ self.old.at ∷ []) }
        ensures at { self.new.at ≡ next }
    {
        let last = mem::replace(&mut self.at, next);
        match self.names.insert(last) {
            Ok(_) => Ok(()),
            Err(_) => Err(NoMemory),
        }
    }

    pub(crate) fn path(&self, alloc: Global) -> Result<Names, NoMemory>
        ensures { IfOk result (λ p. p ≡ self.now.names.keys ++ self.now.at ∷ []) }
    {
        let mut path = listed(alloc, self.names.as_slice())?;
        path.push(self.at.copy(alloc)?)?;
        Ok(path)
    }
}

fn listed(alloc: Global, names: &[Name]) -> Result<Names, NoMemory>
    ensures { IfOk result (λ list. list ≡ names.now) }
{
    let mut list = Names::new(alloc);
    for name in names {
        list.push(name.copy(alloc)?)?;
    }
    Ok(list)
}
