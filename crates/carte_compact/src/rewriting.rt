// A rewriting of the file with the live information.
ghost use Rattle.std.specs.Prelude.{◌≡◌, ◌<◌, ◌^◌, false, List, None, IfOk};
ghost use Rattle.carte_journal.specs.Regions.{IsRewritable, Planned, needs_with, region_end};
ghost use Rattle.carte_record.specs.declared.batch.Batch.{Batch as SomeBatch};
ghost use Rattle.carte_state.specs.Around.{over_disk};
ghost use Rattle.carte_compact.specs.Lengths.{AreTraceLengths, region_length};
ghost use Rattle.carte_compact.specs.Live.{IsLive};
ghost use Rattle.carte_compact.specs.Rewriting.{IsLiveRegion, Rewrites};

use crate::bodies::live_bodies;
use crate::lengths::{TraceLengths, length_with, live_length, trace_lengths};
use carte_io::Disk;
use carte_journal::Region;
use carte_record::Kept;
use carte_state::{ApplyFault, State};
use carte_value::NoMemory;
use std::alloc::Global;

/// The most bytes of which a journal is asked what a region of them needs.
const MOST: u64 = 9223372036854775807;

/// How many bytes the file would need for a rewriting: the end of the region that `rewrite` would write. Nothing is
/// planned, and no call of a disk is made. There is no memory either where what is live has 2^63 bytes.
pub fn rewriting_needs(alloc: Global, state: &State) -> Result<u64, NoMemory>
    ensures needs { IfOk result (λ n. (Bs : List SomeBatch) → IsLive state.now.kept Bs → n ≡ needs_with state.now.journal (region_length Bs)) }
    ensures region { IfOk result (λ n. (p : Planned) → IsLiveRegion state.now p → n ≡ region_end p) }
{
    let length = short_length(alloc, state.kept())?;
    Ok(state.needed_with(length))
}

/// The live length, where it has 63 bits.
pub(crate) fn short_length(alloc: Global, kept: &Kept) -> Result<u64, NoMemory>
    ensures length { IfOk result (λ n. (Bs : List SomeBatch) → IsLive kept.now Bs → n ≡ region_length Bs) }
    ensures short { IfOk result (λ n. n < 2 ^ 63) }
{
    short(live_length(alloc, kept)?)
}

/// The same; and the lists of traces know their part of it from then on, so that no later call needs a pass over them just to
/// see that they are no shorter.
pub(crate) fn learned_length(alloc: Global, state: &mut State) -> Result<u64, NoMemory>
    ensures same { state.new ≡ state.old }
    ensures length { IfOk result (λ n. (Bs : List SomeBatch) → IsLive state.old.kept Bs → n ≡ region_length Bs) }
    ensures short { IfOk result (λ n. n < 2 ^ 63) }
{
    let traces = trace_lengths(alloc, state.kept())?;
    learn(state, traces);
    short(length_with(alloc, state.kept(), traces)?)
}

// Without the 4 bytes of their number.
fn learn(state: &mut State, traces: TraceLengths)
    requires { AreTraceLengths state.old.kept traces.verifying traces.constructive traces.deep }
    ensures { state.new ≡ state.old }
{
    state.learn_lengths(
        traces.verifying.saturating_sub(4),
        traces.constructive.saturating_sub(4),
        traces.deep.saturating_sub(4),
    );
}

fn short(length: u64) -> Result<u64, NoMemory>
    ensures same { IfOk result (λ n. n ≡ length) }
    ensures short { IfOk result (λ n. n < 2 ^ 63) }
{
    if length > MOST {
        return Err(NoMemory);
    }
    Ok(length)
}

/// Writes the live information in the place of all bodies of the file. What is kept stays as it is, and at each moment an
/// image of the file keeps it. It makes 4 writing calls as the first one of a file, and 5 or 7 as a later one, all behind
/// the last piece of memory that it takes.
pub fn rewrite<D: Disk>(alloc: Global, state: &mut State, disk: &mut D) -> Result<(), ApplyFault>
    requires whole { state.old.journal.broken ≡ false }
    requires rewritable { IsRewritable state.old.journal }
    requires new { state.old.one ≡ None }
    ensures { Rewrites (over_disk D.tells D.story D.faults disk.old disk.new) state.old state.new result }
{
    let region = live_region(alloc, state)?;
    match state.rewrite(disk, &region) {
        Ok(()) => Ok(()),
        Err(fault) => Err(ApplyFault::of(fault)),
    }
}

fn live_region(alloc: Global, state: &State) -> Result<Region, NoMemory>
    ensures { IfOk result (λ region. IsLiveRegion state.now region) }
{
    let bodies = live_bodies(alloc, state.kept())?;
    state.plan(alloc, &bodies)
}
