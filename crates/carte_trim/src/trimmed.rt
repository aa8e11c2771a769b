// What is kept, trimmed.
ghost use Rattle.std.specs.Prelude.{◌≡◌, IfOk};
ghost use Rattle.carte_record.specs.Folds.{applied};
ghost use Rattle.carte_record.specs.Kept.{kept_view, nothing_kept};
ghost use Rattle.carte_trim.specs.Trimmed.{IsNumberOf, IsTrimmed};

use crate::cut::{Counts, cut_all};
use carte_compact::live;
use carte_record::{Batch, Kept};
use carte_value::{NoMemory, Seeded};
use std::alloc::Global;

/// What is left of what is kept, with how many traces there were and are.
#[derive(Drop)]
pub(crate) struct Remains {
    pub(crate) kept: Kept,
    pub(crate) counts: Counts,
}

/// The newest `count` traces of each key and each way, and what else they and the entries need.
pub(crate) fn trimmed(alloc: Global, kept: &Kept, count: u64) -> Result<Remains, NoMemory>
    ensures kept { IfOk result (λ t. IsTrimmed (kept_view kept.now) count (kept_view t.kept)) }
    ensures before { IfOk result (λ t. IsNumberOf (kept_view kept.now) t.counts.before) }
    ensures after { IfOk result (λ t. IsNumberOf (kept_view t.kept) t.counts.after) }
{
    let hasher = kept.hasher();
    let mut batches = live(alloc, kept)?;
    let counts = cut_all(alloc, &mut batches, count, hasher)?;
    let kept = kept_of(alloc, batches, hasher)?;
    Ok(Remains { kept, counts })
}

// What batches make of nothing.
fn kept_of(alloc: Global, batches: Vec<Batch>, hasher: Seeded) -> Result<Kept, NoMemory>
    ensures { IfOk result (λ kept. kept_view kept ≡ applied nothing_kept batches.items) }
{
    let mut kept = Kept::empty(alloc, hasher);
    for batch in batches {
        kept.absorb(batch)?;
    }
    Ok(kept)
}
