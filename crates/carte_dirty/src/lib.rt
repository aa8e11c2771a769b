//! Dirty bits: a key's old result is given again where its entry is fresh, that is, where neither its rule nor any rule or
//! input beneath the key has changed since.
//!
//! Before a build the entries are marked that are of a changed rule or lead to what has changed (`kept` is what is left by
//! that), so a fresh entry needs no look at anything: the job of such a key has one check without links, which holds at
//! once, and asks for no name. Each other key runs its task. So the needs of a held key aren't looked into, and a build that
//! changes nothing looks at its targets alone. The price: where a changed need has its old value again, all above it runs.
//!
//! Laws, each the contract of a function that does nothing, say that a key is held where neither it nor anything beneath it
//! has changed (`unchanged_is_held`), and only there (`changed_is_not_held`).
//!
//! Turned down: a job type of its own for two cases that `Tries` has already.
#![tactic(auto)]

mod laws;

ghost use Rattle.std.specs.Prelude.{◌≡◌, option_copied, IfOk};
ghost use Rattle.carte_record.specs.Kept.{kept_view, is_fresh as fresh};
ghost use Rattle.carte_dirty.specs.Fresh.{fresh_value as value_kept, fresh_checks};

use carte_book::Book;
use carte_effect::Hashed;
use carte_note::Method;
use carte_rebuild::{Checks, Rebuilder, Tries};
use carte_record::{Entry, Kept};
use carte_task::Check;
use carte_value::{Links, Name, NoMemory, SharedLinks, Value};
pub use laws::{changed_is_not_held, unchanged_is_held};
use std::alloc::Global;

/// Reuses the result that a key has at last, where neither it nor anything beneath it has changed.
#[derive(Clone, Copy, Debug)]
pub struct Dirty;

fn is_fresh(entry: &Entry) -> bool
    ensures { result ≡ fresh entry.now }
{
    !entry.stale && !entry.shallow
}

// The value of a fresh entry of the key.
fn fresh_value<'a>(kept: &'a Kept, key: &Name) -> Option<&'a Value>
    ensures { option_copied result ≡ value_kept (kept_view kept.now) key.now }
{
    match kept.entries.find(key) {
        Some(entry) if is_fresh(entry) => kept.values.find(&entry.result),
        _ => None,
    }
}

// The check that holds at once, where the key's entry is fresh.
fn kept_checks(alloc: Global, kept: &Kept, key: &Name) -> Result<Checks, NoMemory>
    ensures { IfOk result (λ checks. checks ≡ fresh_checks (kept_view kept.now) key.now) }
{
    let mut checks = Checks::new();
    if let Some(value) = fresh_value(kept, key) {
        let value = Hashed::unhashed(value.copy(alloc)?);
        let links = SharedLinks::of(alloc, Links::new(alloc))?;
        checks.push(alloc, Check::start(alloc, key, &links, value)?)?;
    }
    Ok(checks)
}

impl Rebuilder for Dirty {
    ghost use Rattle.carte_sound.specs.Held.{dirty};
    ghost use Rattle.carte_dirty.specs.Jobs.{IsDirtyJob};
    ghost use Rattle.carte_dirty.specs.Laws.{dirty_keyed, dirty_fits, dirty_goes};

    type Job = Tries;

    ghost how = { λ r. dirty };

    ghost begun = { λ r K b t k p. IsDirtyJob K b t k p };

    fn start(
        &self,
        alloc: Global,
        kept: &Kept,
        book: &Book,
        key: &Name,
    ) -> Result<Tries, NoMemory> {
        let checks = kept_checks(alloc, kept, key)?;
        Tries::of(alloc, book, key, checks)
    }

    fn method(&self) -> Method {
        Method::Dirty
    }

    ghost keyed = { λ r K b t k p job. dirty_keyed K b t k p job };

    ghost fits = { λ r K b H t k p base job. dirty_fits K b H base t k p job };

    ghost goes_on = { λ r K b H t k p part a step q base job grown is_part gives. dirty_goes K b H base t k p job part grown is_part a step q gives };
}
