//! Deep traces: a key has the result of any earlier trace whose rules and inputs, those beneath the key, are what they were.
//!
//! Whether such a trace holds is known before anything is worked out, since the book has the rules and the inputs. So `start`
//! compares what the key's traces name with the book, one trace after another, and the job of a held key has its result from
//! the start: it asks for nothing, and no task is made for it. Each other key runs its task. A trace names each rule beneath
//! its key with the digest of that rule's task, so a rule that is put in, changed or taken away runs what lies above it, and
//! nothing else. A name that is no rule or no input of the book any more, a digest that differs, and a result that the store
//! lacks each count as a difference. The needs of a held key aren't looked into, so a build that changes nothing looks at its
//! targets alone.
//!
//! The price is in what a trace names: all rules and all inputs beneath its key. In a chain of rules, each with an input of
//! its own, that grows with the square of the chain: a hundred rules leave about ten thousand names. And nothing is cut off
//! early: where an input or a rule changes, all rules above it run, though the values between are the same as before.
//!
//! Laws, each the contract of a function that does nothing, say which keys are held: those beneath which the rules and the
//! inputs are those of a trace (`unchanged_is_held`, `stays_held`, `other_tasks_hold_nothing`), also where what has changed
//! is set back (`set_back_is_held`). A trace that holds names just what lies beneath its key now (`held_trace_is_present`).
//!
//! Turned down:
//! - A check in the job, which asks for the inputs: over a part of the values that lacks one it would stop at a name that
//!   the key may not need, so a job would stop at names that nobody works out.
//! - `Tries`, whose checks ask for the needs of the key alone, for the same reason.
//! - One digest of all rules in each trace, which any edit of any rule changes.
#![tactic(auto)]

mod held;
mod job;
mod laws;

ghost use Rattle.std.specs.Prelude.{◌≡◌, IfOk};

use crate::held::held;
use carte_book::Book;
use carte_note::Method;
use carte_rebuild::Rebuilder;
use carte_record::{Kept, Way};
use carte_value::{Name, NoMemory};
pub use job::DeepJob;
pub use laws::{
    held_trace_is_present, other_tasks_hold_nothing, set_back_is_held, stays_held,
    unchanged_is_held,
};
use std::alloc::Global;

/// Reuses the result of any trace of a key whose rules and inputs beneath it still have their digests.
#[derive(Clone, Copy, Debug)]
pub struct Deep;

impl Rebuilder for Deep {
    ghost use Rattle.carte_record.specs.declared.way.Way.TheVariants.{Deep as InDepth};
    ghost use Rattle.carte_sound.specs.Held.{tracing};
    ghost use Rattle.carte_deep.specs.Jobs.{IsDeepJob};
    ghost use Rattle.carte_deep.specs.Laws.{deep_keyed, deep_fits, deep_goes};

    type Job = DeepJob;

    ghost how = { λ r. tracing InDepth };

    ghost begun = { λ r K b t k p. IsDeepJob K b t k p };

    fn start(
        &self,
        alloc: Global,
        kept: &Kept,
        book: &Book,
        key: &Name,
    ) -> Result<DeepJob, NoMemory> {
        let earlier = held(alloc, kept, book, key)?;
        DeepJob::of(alloc, book, key, earlier)
    }

    fn method(&self) -> Method {
        Method::Tracing(Way::Deep)
    }

    ghost keyed = { λ r K b t k p job. deep_keyed K b t k p job };

    ghost fits = { λ r K b H t k p base job. deep_fits K b H base t k p job };

    ghost goes_on = { λ r K b H t k p part a step q base job grown is_part gives. deep_goes K b H base t k p job part grown is_part a step q gives };
}
