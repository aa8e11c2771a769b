// The rules that ran.
ghost use Rattle.std.specs.Prelude.{◌≡◌, length, IfOk};
ghost use Rattle.carte_value.specs.Truths.{NoneTwice};
ghost use Rattle.carte_engine.specs.Sorted.{sorted};

use carte_mark::listed;
use carte_value::{Name, Names, NoMemory};
use std::alloc::Global;
use std::marker::Model;

/// The keys of rules that ran, seen in name order. They are put in this order where their names are wanted: it takes longer than
/// all else that becomes of them, and mostly they are only counted.
#[derive(Debug, Drop)]
pub struct Ran {
    keys: Vec<Name>,
}

impl Model for Ran {
    ghost use Rattle.std.specs.Prelude.{ℕ, List};
    ghost use Rattle.carte_value.specs.Truths.{NoneTwice};
    ghost use Rattle.carte_engine.specs.Sorted.{sorted};

    ghost Value = { List (List ℕ) };

    ghost view = { λ r. sorted r.keys.items };

    ghost invariant = { λ r. NoneTwice r.keys.items };
}

impl Ran {
    /// Those with these keys.
    pub(crate) fn of(keys: Vec<Name>) -> Ran
        requires { NoneTwice keys.items }
        ensures { result ≡ sorted keys.items }
    {
        Ran { keys }
    }

    /// How many ran. It takes no memory.
    pub fn len(&self) -> usize
        ensures { result ≡ length self.now }
    {
        self.keys.as_slice().len()
    }

    /// Their keys, in name order.
    pub fn names(&self, alloc: Global) -> Result<Names, NoMemory>
        ensures { IfOk result (λ names. names ≡ self.now) }
    {
        let keys = copied(alloc, self.keys.as_slice())?;
        listed(alloc, in_order(keys))
    }
}

fn copied(alloc: Global, keys: &[Name]) -> Result<Vec<Name>, NoMemory>
    ensures { IfOk result (λ copy. copy.items ≡ keys.now) }
{
    let mut copy = Vec::with_capacity(alloc, keys.len())?;
    for key in keys {
        copy.push(key.copy(alloc)?)?;
    }
    Ok(copy)
}

/// Names in name order, each once.
pub(crate) fn in_order(keys: Vec<Name>) -> Vec<Name>
    ensures { result.items ≡ sorted keys.items }
{
    let mut keys = keys;
    keys.sort_unstable();
    keys.dedup();
    keys
}
