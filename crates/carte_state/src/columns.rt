// Batches of kind 4, cut into columns that don't touch one another, each put together by a thread of its own.
ghost use Rattle.std.specs.Prelude.{◌≡◌, ◌<◌, ◌++◌, ◌∷◌, [], true, List, IfOk, OnOk, Some};
ghost use Rattle.std.specs.List.{list_all};
ghost use Rattle.carte_record.specs.Folds.{applied};
ghost use Rattle.carte_record.specs.Kept.{kept_view, nothing_kept};
ghost use Rattle.carte_record.specs.declared.batch.Batch.{Batch as SomeBatch};
ghost use Rattle.carte_state.specs.Columns.{AreColumns, all_four, are_four, four_in, fours_at, fours_in, fours_of, is_four};

use crate::any::AnyBatch;
use crate::parts::Found;
use crate::room::{Sizes, put_in};
use carte_record::{Batch, Kept};
use carte_value::{NoMemory, Seeded};
use std::alloc::Global;
use std::marker::Sync;
use std::mem::swap;
use std::thread::{Threads, join};

/// The fewest bytes that a body has on the average where batches are cut: what is cut takes some hundred bytes more for each.
const LONG: usize = 1 << 12;

/// The fewest threads for which all columns are put together side by side.
const ALL: usize = 3;

/// Of batches in their order the entries with their marks, the verifying traces, and all other lists: what is typically
/// large is apart. Each column has a batch in the place of each.
#[derive(Drop)]
struct Columns {
    entries: Vec<Batch>,
    verifying: Vec<Batch>,
    others: Vec<Batch>,
}

/// Whether batches are cut: where bodies are long, or the gate asks.
pub(crate) fn are_cut(bodies: usize, bytes: usize, all: bool) -> bool
    ensures { result ≡ true → 0 < bodies }
{
    bodies > 0 && (all || bytes / LONG >= bodies)
}

/// Whether batches are cut and can be.
pub(crate) fn can_cut(parts: &[Result<Vec<Found>, NoMemory>], is_cut: bool) -> bool
    ensures { result ≡ true → (is_cut ≡ true) × (are_four parts.now ≡ true) }
{
    is_cut && are_four(parts)
}

// Whether all were read, and are batches of kind 4.
fn are_four(parts: &[Result<Vec<Found>, NoMemory>]) -> bool
    ensures { result ≡ are_four parts.now }
{
    parts.iter().all(|part| all_four(part))
}

fn all_four(part: &Result<Vec<Found>, NoMemory>) -> bool
    ensures { result ≡ all_four part.now }
{
    match part {
        Ok(founds) => all_of_four(founds.as_slice()),
        Err(_) => false,
    }
}

fn all_of_four(founds: &[Found]) -> bool
    ensures { result ≡ list_all is_four founds.now }
{
    founds.iter().all(|found| is_four(found))
}

fn is_four(found: &Found) -> bool
    ensures { result ≡ is_four found.now }
{
    match &found.batch {
        Some(AnyBatch::One(_)) => false,
        Some(AnyBatch::Three(_)) => false,
        Some(AnyBatch::Four(_)) => true,
        None => false,
    }
}

/// What is kept after the batches of kind 4, by at most so many threads. What isn't one is left out.
pub(crate) fn kept_by_columns<T: Threads + Sync>(
    rt: &T,
    alloc: Global,
    parts: Vec<Result<Vec<Found>, NoMemory>>,
    hasher: Seeded,
    workers: usize,
) -> Result<Kept, NoMemory>
    ensures { IfOk result (λ kept. kept_view kept ≡ applied nothing_kept (fours_of parts.items)) }
{
    let columns = columns_of(alloc, parts, hasher)?;
    columns.kept(rt, alloc, hasher, workers)
}

fn columns_of(
    alloc: Global,
    parts: Vec<Result<Vec<Found>, NoMemory>>,
    hasher: Seeded,
) -> Result<Columns, NoMemory>
    ensures { IfOk result (λ columns. AreColumns (fours_of parts.items) columns) }
{
    let mut columns = Columns::new(alloc);
    for part in parts {
        columns.add_part(alloc, part, hasher)?;
    }
    Ok(columns)
}

impl Columns {
    fn new(alloc: Global) -> Columns
        ensures { AreColumns [] result }
    {
        Columns {
            entries: Vec::new(alloc),
            verifying: Vec::new(alloc),
            others: Vec::new(alloc),
        }
    }

    fn add_part(
        &mut self,
        alloc: Global,
        part: Result<Vec<Found>, NoMemory>,
        hasher: Seeded,
    ) -> Result<(), NoMemory>
        ensures { OnOk result ((Bs : List SomeBatch) → AreColumns Bs self.old → AreColumns (Bs ++ fours_at part) self.new) }
    {
        match part {
            Ok(founds) => self.add_all(alloc, founds, hasher),
            Err(refused) => Err(refused),
        }
    }

    fn add_all(&mut self, alloc: Global, founds: Vec<Found>, hasher: Seeded) -> Result<(), NoMemory>
        ensures { OnOk result ((Bs : List SomeBatch) → AreColumns Bs self.old → AreColumns (Bs ++ fours_in founds.items) self.new) }
    {
        for found in founds {
            let Found { batch, .. } = found;
            self.add_any(alloc, batch, hasher)?;
        }
        Ok(())
    }

    fn add_any(
        &mut self,
        alloc: Global,
        batch: Option<AnyBatch>,
        hasher: Seeded,
    ) -> Result<(), NoMemory>
        ensures { OnOk result ((Bs : List SomeBatch) → AreColumns Bs self.old → AreColumns (Bs ++ four_in batch) self.new) }
    {
        match batch {
            Some(batch) => self.add_kind(alloc, batch, hasher),
            None => Ok(()),
        }
    }

    fn add_kind(&mut self, alloc: Global, batch: AnyBatch, hasher: Seeded) -> Result<(), NoMemory>
        ensures { OnOk result ((Bs : List SomeBatch) → AreColumns Bs self.old → AreColumns (Bs ++ four_in (Some batch)) self.new) }
    {
        match batch {
            AnyBatch::One(_) => Ok(()),
            AnyBatch::Three(_) => Ok(()),
            AnyBatch::Four(batch) => self.add(alloc, batch, hasher),
        }
    }

    // A batch more, of which each column gets its own lists.
    fn add(&mut self, alloc: Global, batch: Batch, hasher: Seeded) -> Result<(), NoMemory>
        ensures { OnOk result ((Bs : List SomeBatch) → AreColumns Bs self.old → AreColumns (Bs ++ batch ∷ []) self.new) }
    {
        let mut others = batch;
        let entries = begun_as(alloc, &others, hasher)?;
        let verifying = begun_as(alloc, &others, hasher)?;
        let entries = with_entries(entries, &mut others);
        let verifying = with_verifying(verifying, &mut others);
        self.put(entries, verifying, others)?;
        Ok(())
    }

    fn put(&mut self, entries: Batch, verifying: Batch, others: Batch) -> Result<(), NoMemory>
        ensures entries { OnOk result (self.new.entries.items ≡ self.old.entries.items ++ entries ∷ []) }
        ensures verifying { OnOk result (self.new.verifying.items ≡ self.old.verifying.items ++ verifying ∷ []) }
        ensures others { OnOk result (self.new.others.items ≡ self.old.others.items ++ others ∷ []) }
    {
        self.entries.push(entries)?;
        self.verifying.push(verifying)?;
        self.others.push(others)?;
        Ok(())
    }

    // What is kept after the batches.
    fn kept<T: Threads + Sync>(
        self,
        rt: &T,
        alloc: Global,
        hasher: Seeded,
        workers: usize,
    ) -> Result<Kept, NoMemory>
        ensures { IfOk result (λ kept. (Bs : List SomeBatch) → AreColumns Bs self → kept_view kept ≡ applied nothing_kept Bs) }
    {
        let apart = self.kept_apart(rt, alloc, hasher, workers)?;
        let (entries, verifying, others) = apart;
        Ok(beside(entries, verifying, others))
    }

    // What each column makes of nothing, by a thread of its own, or two of them by one where there are two.
    fn kept_apart<T: Threads + Sync>(
        self,
        rt: &T,
        alloc: Global,
        hasher: Seeded,
        workers: usize,
    ) -> Result<(Kept, Kept, Kept), NoMemory>
        ensures entries { IfOk result (λ kept. kept_view kept.0 ≡ applied nothing_kept self.entries.items) }
        ensures verifying { IfOk result (λ kept. kept_view kept.1 ≡ applied nothing_kept self.verifying.items) }
        ensures others { IfOk result (λ kept. kept_view kept.2 ≡ applied nothing_kept self.others.items) }
    {
        let Columns {
            entries,
            verifying,
            others,
        } = self;
        let (first, rest) = join(
            rt,
            || put_together(alloc, entries, hasher),
            || put_both(rt, alloc, verifying, others, hasher, workers),
        );
        let entries = first?;
        let (verifying, others) = rest?;
        Ok((entries, verifying, others))
    }
}

// What a batch begins with, and what it drops.
fn begun_as(alloc: Global, batch: &Batch, hasher: Seeded) -> Result<Batch, NoMemory>
    ensures { IfOk result (λ begun. (begun.start ≡ batch.now.start) × (begun.gone ≡ batch.now.gone)) }
{
    let mut begun = Batch::new(alloc, hasher);
    begun.start = batch.start;
    begun.gone = batch.gone.copy(alloc)?;
    Ok(begun)
}

fn with_entries(column: Batch, batch: &mut Batch) -> Batch
    ensures column { result ≡ record column { entries = batch.old.entries; stale = batch.old.stale } }
    ensures left { batch.new ≡ record batch.old { entries = column.entries; stale = column.stale } }
{
    let mut column = column;
    swap(&mut column.entries, &mut batch.entries);
    swap(&mut column.stale, &mut batch.stale);
    column
}

fn with_verifying(column: Batch, batch: &mut Batch) -> Batch
    ensures column { result ≡ record column { verifying = batch.old.verifying } }
    ensures left { batch.new ≡ record batch.old { verifying = column.verifying } }
{
    let mut column = column;
    swap(&mut column.verifying, &mut batch.verifying);
    column
}

// What a column's batches make of nothing. Each is dropped as it is put in.
fn put_together(alloc: Global, batches: Vec<Batch>, hasher: Seeded) -> Result<Kept, NoMemory>
    ensures { IfOk result (λ kept. kept_view kept ≡ applied nothing_kept batches.items) }
{
    let mut kept = Kept::empty(alloc, hasher);
    let mut coming = Sizes::of_all(batches.as_slice());
    for batch in batches {
        put_in(&mut kept, batch, &mut coming)?;
    }
    Ok(kept)
}

// The same of two columns, side by side where there are threads for it.
fn put_both<T: Threads + Sync>(
    rt: &T,
    alloc: Global,
    front: Vec<Batch>,
    back: Vec<Batch>,
    hasher: Seeded,
    workers: usize,
) -> Result<(Kept, Kept), NoMemory>
    ensures { IfOk result (λ kept. (kept_view kept.0 ≡ applied nothing_kept front.items) × (kept_view kept.1 ≡ applied nothing_kept back.items)) }
{
    if workers < ALL {
        let first = put_together(alloc, front, hasher)?;
        return Ok((first, put_together(alloc, back, hasher)?));
    }
    let (first, last) = join(
        rt,
        || put_together(alloc, front, hasher),
        || put_together(alloc, back, hasher),
    );
    let first = first?;
    Ok((first, last?))
}

// The lists of all columns.
fn beside(entries: Kept, verifying: Kept, others: Kept) -> Kept
    ensures { result ≡ record others { entries = entries.entries; verifying = verifying.verifying } }
{
    let Kept { entries, .. } = entries;
    let Kept { verifying, .. } = verifying;
    let mut kept = others;
    kept.entries = entries;
    kept.verifying = verifying;
    kept
}
