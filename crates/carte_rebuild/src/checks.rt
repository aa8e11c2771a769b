ghost use Rattle.std.specs.Prelude.{◌≡◌, ◌++◌, ◌∷◌, [], OnOk, OnErr};
ghost use Rattle.carte_effect.specs.Effects.{SameStops};
ghost use Rattle.carte_rebuild.specs.Open.{open_checks};
ghost use Rattle.carte_rebuild.specs.Tried.{Tried};

use carte_effect::{Effect, Halt, Reuse};
use carte_task::{Check, Verdict};
use carte_value::NoMemory;
use std::alloc::Global;
use std::marker::Model;
use std::mem;

/// Checks of earlier ends of a key's task, of which the last comes first. Contracts see them as their list.
#[derive(Drop)]
pub struct Checks {
    untried: Open,
}

// Most keys have one check, which takes no memory of its own: the list of those before it is empty then.
#[derive(Drop)]
enum Open {
    Empty,
    Last(Vec<Check>, Check),
}

impl Model for Checks {
    ghost use Rattle.std.specs.Prelude.{List};
    ghost use Rattle.carte_task.specs.Checking.{Checking};
    ghost use Rattle.carte_rebuild.specs.Open.{open_checks};

    ghost Value = { List Checking };

    ghost view = { λ cs. open_checks cs.untried };
}

impl Checks {
    /// No checks. They take no memory.
    pub fn new() -> Checks
        ensures { result ≡ [] }
    {
        Checks {
            untried: Open::Empty,
        }
    }

    /// One check more, behind the others. Where there is no memory, it is dropped and nothing has changed.
    pub fn push(&mut self, alloc: Global, check: Check) -> Result<(), NoMemory>
        ensures put { OnOk result (self.new ≡ self.old ++ check ∷ []) }
        ensures refused { OnErr result (self.new ≡ self.old) }
    {
        add_last(alloc, &mut self.untried, check)
    }

    /// Drives the checks, the last one first, until one holds. Those that differ are dropped.
    pub(crate) fn try_all<E: Effect>(
        &mut self,
        alloc: Global,
        effect: &mut E,
    ) -> Result<Option<Reuse>, Halt<E::Stop>>
        ensures truth { E.truth effect.new ≡ E.truth effect.old }
        ensures stops { SameStops (E.stops effect.old) (E.stops effect.new) }
        ensures tried { Tried (E.truth effect.old) (E.stops effect.old) (E.log effect.old) (E.log effect.new) self.old self.new result }
    {
        try_open(alloc, &mut self.untried, effect)
    }
}

fn add_last(alloc: Global, untried: &mut Open, check: Check) -> Result<(), NoMemory>
    ensures put { OnOk result (open_checks untried.new ≡ open_checks untried.old ++ check ∷ []) }
    ensures refused { OnErr result (open_checks untried.new ≡ open_checks untried.old) }
{
    match untried {
        Open::Empty => *untried = Open::Last(Vec::new(alloc), check),
        Open::Last(before, last) => {
            before.reserve(1)?;
            before.push_reserved(mem::replace(last, check));
        }
    }
    Ok(())
}

fn try_open<E: Effect>(
    alloc: Global,
    untried: &mut Open,
    effect: &mut E,
) -> Result<Option<Reuse>, Halt<E::Stop>>
    ensures truth { E.truth effect.new ≡ E.truth effect.old }
    ensures stops { SameStops (E.stops effect.old) (E.stops effect.new) }
    ensures tried { Tried (E.truth effect.old) (E.stops effect.old) (E.log effect.old) (E.log effect.new) (open_checks untried.old) (open_checks untried.new) result }
{
    'checks: while let Open::Last(before, last) = untried {
        match last.drive(alloc, effect) {
            Ok(Verdict::Same(reuse)) => return Ok(Some(reuse)),
            Ok(Verdict::Differs(_)) => *untried = left(alloc, before),
            Err(halt) => return Err(halt),
        }
    }
    Ok(None)
}

// Those that stood before the last one. They are taken out of their list.
fn left(alloc: Global, before: &mut Vec<Check>) -> Open
    ensures { open_checks result ≡ before.old.items }
{
    match before.pop() {
        Some(last) => Open::Last(mem::replace(before, Vec::new(alloc)), last),
        None => Open::Empty,
    }
}
