//! Constructive traces: a key has the result of any earlier trace of its task whose links are those that the needs have now.
//!
//! The job is that of all rebuilders which compare needs (`Tries`): here it gets the checks of all traces of the key whose
//! result is in the store. So a key whose inputs are set back has its old result again, and needs no entry for it. One
//! trace at most can hold; so in which order they are compared is a matter of cost, of which no clause speaks.
//!
//! What a build may rely on stands as laws, each the contract of a function that does nothing. A key is held exactly where
//! it has the task and its needs the values of a trace (`unchanged_is_held`, `held_is_unchanged`), and by no trace of another
//! task (`other_tasks_hold_nothing`); whatever has run beneath it (`early_cutoff`), and again where what has changed is set
//! back (`set_back_is_held`), without an entry (`traces_alone_hold`) and in any order of its traces (`one_trace_holds`).
//!
//! Turned down: one look-up by the digest of all links, which finds a trace in one step, but only once each need has its
//! value, and so has to know the needs before it looks.
#![tactic(auto)]

mod laws;

ghost use Rattle.std.specs.Prelude.{◌≡◌, option_map, IfOk};
ghost use Rattle.carte_book.specs.Book.{book_view};
ghost use Rattle.carte_record.specs.Kept.{kept_view};
ghost use Rattle.carte_record.specs.declared.way.Way.TheVariants.{Constructive};
ghost use Rattle.carte_rebuild.specs.Traced.{AreTried};

use carte_book::Book;
use carte_note::Method;
use carte_rebuild::{Checks, Rebuilder, Tries, checks_of};
use carte_record::{Kept, Way};
use carte_value::{Name, NoMemory};
pub use laws::{
    early_cutoff, held_is_unchanged, held_links_are_present, one_trace_holds,
    other_tasks_hold_nothing, set_back_is_held, traces_alone_hold, unchanged_is_held,
};
use std::alloc::Global;

/// Reuses the result of any trace of a key whose links still have their digests.
#[derive(Clone, Copy, Debug)]
pub struct Construct;

// The checks of all traces of the key with its task.
fn kept_checks(alloc: Global, kept: &Kept, book: &Book, key: &Name) -> Result<Checks, NoMemory>
    ensures { IfOk result (λ checks. AreTried Constructive (kept_view kept.now) (book_view book.now) key.now checks) }
{
    checks_of(alloc, book, &kept.constructive, &kept.values, key, None)
}

impl Rebuilder for Construct {
    ghost use Rattle.carte_sound.specs.Held.{tracing};
    ghost use Rattle.carte_rebuild.specs.Traced.{IsTracedJob};
    ghost use Rattle.carte_rebuild.proofs.TracedJobs.{traced_fits, traced_goes};
    ghost use Rattle.carte_rebuild.proofs.TracedKeys.{traced_keyed};
    ghost use Rattle.carte_rebuild.proofs.TracedChecks.{of_constructive};

    type Job = Tries;

    ghost how = { λ r. tracing Constructive };

    ghost begun = { λ r K b t k p. IsTracedJob Constructive K b t k p };

    fn start(
        &self,
        alloc: Global,
        kept: &Kept,
        book: &Book,
        key: &Name,
    ) -> Result<Tries, NoMemory> {
        let checks = kept_checks(alloc, kept, book, key)?;
        Tries::of(alloc, book, key, checks)
    }

    fn method(&self) -> Method {
        Method::Tracing(Way::Constructive)
    }

    ghost keyed = { λ r K b t k p job. traced_keyed Constructive K b t k p job };

    ghost fits = { λ r K b H t k p base job. traced_fits Constructive of_constructive K b H base t k p job };

    ghost goes_on = { λ r K b H t k p part a step q base job grown is_part gives. traced_goes Constructive of_constructive K b H base t k p job part grown is_part a step q gives };
}
