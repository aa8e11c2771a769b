// The batches of the live information.
ghost use Rattle.std.specs.Prelude.{◌≡◌, ◌∷◌, [], IfOk};
ghost use Rattle.carte_record.specs.Folds.{applied};
ghost use Rattle.carte_record.specs.Kept.{kept_view, nothing_kept};
ghost use Rattle.carte_state.specs.Runs.{AreUnmarked};
ghost use Rattle.carte_compact.specs.Live.{IsAllOf, IsLive, IsSomeLive, chain_for};

use crate::entries::{entries_at, links_at, stale_at};
use crate::latest::last_ones;
use crate::names::{entry_keys, seen_names};
use crate::values::by_digest;
use carte_record::{Batch, Kept, Start};
use carte_value::{Name, Names, NoMemory};
use std::alloc::Global;

/// The live information: the batches that make of nothing what is kept, in as few bytes as can say it. None where nothing
/// is kept; else one with everything, which marks what is stale.
pub fn live(alloc: Global, kept: &Kept) -> Result<Vec<Batch>, NoMemory>
    ensures live { IfOk result (λ batches. IsLive kept.now batches.items) }
    ensures kept { IfOk result (λ batches. applied nothing_kept batches.items ≡ kept_view kept.now) }
    ensures unmarked { IfOk result (λ batches. AreUnmarked batches.items) }
{
    if kept.is_bare() {
        return Ok(Vec::new(alloc));
    }
    some_live(alloc, kept)
}

fn some_live(alloc: Global, kept: &Kept) -> Result<Vec<Batch>, NoMemory>
    ensures { IfOk result (λ batches. IsSomeLive kept.now batches.items) }
{
    let names = seen_names(alloc, &kept.seen)?;
    let keys = entry_keys(alloc, &kept.entries)?;
    let batch = all_of(alloc, kept, names.as_slice(), keys.as_slice())?;
    only(alloc, batch)
}

fn only(alloc: Global, batch: Batch) -> Result<Vec<Batch>, NoMemory>
    ensures { IfOk result (λ batches. batches.items ≡ batch ∷ []) }
{
    let mut batches = Vec::with_capacity(alloc, 1)?;
    batches.push(batch)?;
    Ok(batches)
}

// A batch with all that is kept.
fn all_of(alloc: Global, kept: &Kept, names: &[Name], keys: &[Name]) -> Result<Batch, NoMemory>
    ensures { IfOk result (λ batch. IsAllOf kept.now names.now keys.now batch) }
{
    let hasher = kept.hasher();
    Ok(Batch {
        start: Start::GoOn,
        values: by_digest(alloc, &kept.values, hasher)?,
        gone: Names::new(alloc),
        seen: links_at(alloc, &kept.seen, names, hasher)?,
        entries: entries_at(alloc, &kept.entries, keys)?,
        stale: stale_at(alloc, &kept.entries, keys)?,
        verifying: last_ones(alloc, &kept.verifying, hasher)?,
        constructive: last_ones(alloc, &kept.constructive, hasher)?,
        deep: last_ones(alloc, &kept.deep, hasher)?,
        chain: chain_for(alloc, &kept.chain)?,
    })
}

fn chain_for(alloc: Global, chain: &Names) -> Result<Option<Names>, NoMemory>
    ensures { IfOk result (λ copy. copy ≡ chain_for chain.now) }
{
    if chain.is_empty() {
        return Ok(None);
    }
    Ok(Some(chain.copy(alloc)?))
}
