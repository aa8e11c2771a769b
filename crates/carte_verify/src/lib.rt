//! Verifying traces: a key's old result is given again where a trace of its task and of that result has the links that the
//! needs have now.
//!
//! The job is that of all rebuilders which compare needs (`Tries`): here it gets the checks of those traces whose result
//! is the one that the key's entry has. So at most one result comes into question, and a key that has no entry just runs
//! its task. What a check looks up a run would look up too, since a trace's names are compared in the order in which the
//! task asked for them, and only as far as they are the same.
//!
//! What a build may rely on stands as laws, each the contract of a function that does nothing. A key is held exactly where
//! it has the task and its needs the values of then, and its entry the result of then (`unchanged_is_held`,
//! `held_is_unchanged`), whatever has run beneath it (`early_cutoff`). The price: an old result that a later run has
//! replaced doesn't come back (`held_has_its_last_result`), and a key that another rebuilder finished runs once
//! (`untraced_is_not_held`).
//!
//! Turned down: looking through all traces for those of the key (they are found by the key), and comparing the links of a
//! trace before it is known that its result is still kept.
#![tactic(auto)]

mod laws;

ghost use Rattle.std.specs.Prelude.{◌≡◌, option_map, IfOk};
ghost use Rattle.carte_book.specs.Book.{book_view};
ghost use Rattle.carte_record.specs.Kept.{kept_view};
ghost use Rattle.carte_record.specs.declared.way.Way.TheVariants.{Verifying};
ghost use Rattle.carte_rebuild.specs.Traced.{AreTried};

use carte_book::Book;
use carte_note::Method;
use carte_rebuild::{Checks, Rebuilder, Tries, checks_of};
use carte_record::{Kept, Way};
use carte_value::{Name, NoMemory};
pub use laws::{
    early_cutoff, held_has_its_last_result, held_is_unchanged, held_links_are_present,
    unchanged_is_held, untraced_is_not_held,
};
use std::alloc::Global;

/// Reuses the result that a key has at last, where a trace with this result verifies it.
#[derive(Clone, Copy, Debug)]
pub struct Verify;

// The checks of the key's traces with its task and the result of its entry.
fn kept_checks(alloc: Global, kept: &Kept, book: &Book, key: &Name) -> Result<Checks, NoMemory>
    ensures { IfOk result (λ checks. AreTried Verifying (kept_view kept.now) (book_view book.now) key.now checks) }
{
    match kept.entries.find(key) {
        Some(entry) => checks_of(
            alloc,
            book,
            &kept.verifying,
            &kept.values,
            key,
            Some(&entry.result),
        ),
        None => Ok(Checks::new()),
    }
}

impl Rebuilder for Verify {
    ghost use Rattle.carte_sound.specs.Held.{tracing};
    ghost use Rattle.carte_rebuild.specs.Traced.{IsTracedJob};
    ghost use Rattle.carte_rebuild.proofs.TracedJobs.{traced_fits, traced_goes};
    ghost use Rattle.carte_rebuild.proofs.TracedKeys.{traced_keyed};
    ghost use Rattle.carte_rebuild.proofs.TracedChecks.{of_verifying};

    type Job = Tries;

    ghost how = { λ r. tracing Verifying };

    ghost begun = { λ r K b t k p. IsTracedJob Verifying K b t k p };

    fn start(
        &self,
        alloc: Global,
        kept: &Kept,
        book: &Book,
        key: &Name,
    ) -> Result<Tries, NoMemory> {
        let checks = kept_checks(alloc, kept, book, key)?;
        Tries::of(alloc, book, key, checks)
    }

    fn method(&self) -> Method {
        Method::Tracing(Way::Verifying)
    }

    ghost keyed = { λ r K b t k p job. traced_keyed Verifying K b t k p job };

    ghost fits = { λ r K b H t k p base job. traced_fits Verifying of_verifying K b H base t k p job };

    ghost goes_on = { λ r K b H t k p part a step q base job grown is_part gives. traced_goes Verifying of_verifying K b H base t k p job part grown is_part a step q gives };
}
