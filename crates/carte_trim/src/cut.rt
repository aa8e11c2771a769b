// The batch of the live information, cut to the newest traces.
ghost use Rattle.std.specs.Prelude.{◌≡◌, IfOk, OnOk};
ghost use Rattle.carte_trim.specs.Lists.{AreCut, IsCut, newest_of, number_in, with_newest};

use crate::named::named;
use crate::newest::newest_of;
use carte_record::Batch;
use carte_table::{Compared, Plain};
use carte_value::{NoMemory, Seeded};
use std::alloc::Global;
use std::mem::replace;

/// How many traces there were, and how many are left.
#[derive(Clone, Copy)]
pub(crate) struct Counts {
    pub(crate) before: u64,
    pub(crate) after: u64,
}

/// Cuts the one batch that there is, or none.
pub(crate) fn cut_all(
    alloc: Global,
    batches: &mut Vec<Batch>,
    count: u64,
    hasher: Seeded,
) -> Result<Counts, NoMemory>
    ensures { IfOk result (AreCut count batches.old.items batches.new.items) }
{
    match batches.get_mut(0) {
        Some(first) => cut(alloc, first, count, hasher),
        None => Ok(Counts {
            before: 0,
            after: 0,
        }),
    }
}

fn cut(alloc: Global, batch: &mut Batch, count: u64, hasher: Seeded) -> Result<Counts, NoMemory>
    ensures cut { OnOk result (IsCut count batch.old batch.new) }
    ensures counts { IfOk result (λ c. (c.before ≡ number_in batch.old) × (c.after ≡ number_in batch.new)) }
{
    let before = number_in(batch);
    cut_traces(alloc, batch, count, hasher)?;
    batch.values = named(alloc, batch, hasher)?;
    Ok(Counts {
        before,
        after: number_in(batch),
    })
}

fn cut_traces(alloc: Global, batch: &mut Batch, count: u64, hasher: Seeded) -> Result<(), NoMemory>
    ensures { OnOk result (batch.new ≡ with_newest count batch.old) }
{
    cut_list(alloc, &mut batch.verifying, count, hasher)?;
    cut_list(alloc, &mut batch.constructive, count, hasher)?;
    cut_list(alloc, &mut batch.deep, count, hasher)
}

fn cut_list<T: Compared + Drop>(
    alloc: Global,
    traces: &mut Plain<T>,
    count: u64,
    hasher: Seeded,
) -> Result<(), NoMemory>
    ensures { OnOk result (traces.new ≡ newest_of T.key_of count traces.old) }
{
    let all = replace(traces, Plain::new(alloc));
    *traces = newest_of(alloc, all, count, hasher)?;
    Ok(())
}

fn number_in(batch: &Batch) -> u64
    ensures { result ≡ number_in batch.now }
{
    batch.verifying.len() as u64 + batch.constructive.len() as u64 + batch.deep.len() as u64
}
