// A new file, planned before its first call.
ghost use Rattle.std.specs.Prelude.{◌≡◌, true, IfOk, IfSome, IfNone};
ghost use Rattle.carte_journal.specs.Journals.{committed};
ghost use Rattle.carte_journal.specs.Regions.{region_end};
ghost use Rattle.carte_record.specs.Bodies.{IsBody};
ghost use Rattle.carte_record.specs.Empty.{is_empty};
ghost use Rattle.carte_record.specs.Kept.{kept_view, nothing_kept};
ghost use Rattle.carte_record.specs.declared.batch.Batch.{Batch as SomeBatch};
ghost use Rattle.carte_trim.specs.New.{IsPlan, fresh_journal};

use carte_compact::live_bodies;
use carte_io::MemDisk;
use carte_journal::{Bodies, Frame, Journal, Region};
use carte_record::{Batch, Kept};
use carte_value::{NoMemory, Seeded};
use std::alloc::Global;

/// The most bytes of a state's file.
pub(crate) const MOST_STATE: u64 = 536870912;

/// The most bytes of a body.
const LONGEST: usize = 4294967295;

/// What is written to a new file: a frame that brings nothing, and then a region in its place. So all that the file is to
/// keep comes at once, in however many batches it is.
#[derive(Drop)]
pub(crate) struct Plan {
    pub(crate) journal: Journal,
    pub(crate) frame: Frame,
    pub(crate) region: Region,
}

/// What is to be written so that the file keeps this, or none where that is nothing.
pub(crate) fn planned(alloc: Global, kept: &Kept) -> Result<Option<Plan>, NoMemory>
    ensures plan { IfOk result (λ plan. IfSome plan (IsPlan 536870912 (kept_view kept.now))) }
    ensures nothing { IfOk result (λ plan. IfNone plan (kept_view kept.now ≡ nothing_kept)) }
{
    let bodies = live_bodies(alloc, kept)?;
    if bodies.len() == 0 {
        return Ok(None);
    }
    let frame = empty_frame(alloc, kept.hasher())?;
    let behind = behind(alloc, &frame)?;
    let region = behind.plan(alloc, &bodies)?;
    Ok(Some(Plan {
        journal: fresh(alloc)?,
        frame,
        region,
    }))
}

// The frame of a batch that brings nothing.
fn empty_frame(alloc: Global, hasher: Seeded) -> Result<Frame, NoMemory>
    ensures { IfOk result (λ frame. (B : SomeBatch) × (is_empty B ≡ true) × IsBody B frame) }
{
    let batch = Batch::new(alloc, hasher);
    let bytes = batch.encode(alloc)?;
    if bytes.len() > LONGEST {
        return Err(NoMemory);
    }
    Frame::made(bytes)
}

// The journal of a new file, which is that of any other new one.
fn fresh(alloc: Global) -> Result<Journal, NoMemory>
    ensures { IfOk result (λ journal. journal ≡ fresh_journal 536870912) }
{
    let mut disk = MemDisk::of(alloc, &[], &[])?;
    match Journal::load(alloc, &mut disk, MOST_STATE) {
        Ok(loaded) => Ok(loaded.0),
        Err(_) => Err(NoMemory),
    }
}

// The journal of a file that has this frame alone.
fn behind(alloc: Global, frame: &Frame) -> Result<Journal, NoMemory>
    ensures { IfOk result (λ journal. journal ≡ committed (fresh_journal 536870912) frame.now) }
{
    let mut journal = fresh(alloc)?;
    let mut disk = MemDisk::of(alloc, &[], &[])?;
    match journal.commit(&mut disk, frame) {
        Ok(()) => Ok(journal),
        Err(_) => Err(NoMemory),
    }
}

impl Plan {
    /// How many bytes the file needs.
    pub(crate) fn needed(&self) -> u64
        ensures { result ≡ region_end self.now.region }
    {
        self.region.needed()
    }
}
