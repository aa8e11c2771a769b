// What a crash of a disk in memory leaves: its calls are done again, and those after the last sync as it is picked.
ghost use Rattle.std.specs.Prelude.{◌≡◌, ◌⊎◌, ◌+◌, ◌-◌, ◌<◌, ◌≤◌, ℕ, [], length, take, drop, slice_index, IfOk, OnOk};
ghost use Rattle.carte_io.specs.Crashes.{AreWrites, FillsCall, IsFilled, is_sync, ranges_on, reads_after};
ghost use Rattle.carte_io.specs.Disk.{IsSettled, Story, range_of};
ghost use Rattle.carte_io.specs.MemDisks.{after_calls, begun};

use crate::NoMemory;
use crate::passed::{Passed, grow, put};
use std::alloc::Global;

/// What a crash makes of the bytes that were written since the last sync.
#[derive(Clone, Copy, Debug)]
pub enum Pick {
    /// They are as they were before, and the length is the synced one.
    Lost,
    /// They are as written.
    Kept,
    /// Each of them, and each in a gap, is this byte, and the length is the longest that was written.
    Fill(u8),
}

/// What there was at the last sync.
pub(crate) fn synced_image(
    alloc: Global,
    first: &[u8],
    calls: &[Passed],
) -> Result<Vec<u8>, NoMemory>
    ensures { IfOk result (λ image. image.items ≡ (after_calls (begun first.now) calls.now).now.synced) }
{
    let count = synced_count(calls);
    let image = replayed(alloc, first, &calls[..count])?;
    Ok(image)
}

/// That, with what was written since filled.
pub(crate) fn filled_image(
    alloc: Global,
    first: &[u8],
    calls: &[Passed],
    byte: u8,
) -> Result<Vec<u8>, NoMemory>
    ensures { IfOk result (λ image.
        let now = (after_calls (begun first.now) calls.now).now in IsFilled byte now.written now.synced image.items) }
{
    let count = synced_count(calls);
    let mut image = replayed(alloc, first, &calls[..count])?;
    fill_all(&mut image, &calls[count..], byte)?;
    Ok(image)
}

// How many calls there are up to the last sync, with it.
fn synced_count(calls: &[Passed]) -> usize
    ensures within { result ≤ length calls.now }
    ensures synced { (s : Story) → IsSettled s.now → IsSettled (after_calls s (take result calls.now)).now }
    ensures writes { AreWrites (drop result calls.now) }
{
    let mut count = calls.len();
    while count > 0 {
        if is_a_sync(&calls[count - 1]) {
            return count;
        }
        count -= 1;
    }
    0
}

fn is_a_sync(call: &Passed) -> bool
    ensures { result ≡ is_sync call.now }
{
    match call {
        Passed::Wrote(_, _) => false,
        Passed::Synced => true,
    }
}

// What a read gives after the calls, over what there was at first.
fn replayed(alloc: Global, first: &[u8], calls: &[Passed]) -> Result<Vec<u8>, NoMemory>
    ensures { IfOk result (λ bytes. bytes.items ≡ (after_calls (begun first.now) calls.now).now.reads) }
{
    let mut bytes = first.to_vec(alloc)?;
    for call in calls {
        replay(&mut bytes, call)?;
    }
    Ok(bytes)
}

fn replay(bytes: &mut Vec<u8>, call: &Passed) -> Result<(), NoMemory>
    ensures { OnOk result (bytes.new.items ≡ reads_after bytes.old.items call.now) }
{
    match call {
        Passed::Wrote(at, piece) => put(bytes, *at as usize, piece.bytes()),
        Passed::Synced => Ok(()),
    }
}

// Fills the ranges of the calls.
fn fill_all(bytes: &mut Vec<u8>, calls: &[Passed], byte: u8) -> Result<(), NoMemory>
    ensures { OnOk result (IsFilled byte (ranges_on [] calls.now) bytes.old.items bytes.new.items) }
{
    for call in calls {
        fill_call(bytes, call, byte)?;
    }
    Ok(())
}

fn fill_call(bytes: &mut Vec<u8>, call: &Passed, byte: u8) -> Result<(), NoMemory>
    ensures { OnOk result (FillsCall byte call.now bytes.old.items bytes.new.items) }
{
    match call {
        Passed::Wrote(at, piece) => fill_range(bytes, *at as usize, piece.bytes().len(), byte),
        Passed::Synced => Ok(()),
    }
}

fn fill_range(bytes: &mut Vec<u8>, at: usize, count: usize, byte: u8) -> Result<(), NoMemory>
    ensures { OnOk result (IsFilled byte (range_of at count) bytes.old.items bytes.new.items) }
{
    let Some(end) = at.checked_add(count) else {
        return Err(NoMemory);
    };
    grow(bytes, end, byte)?;
    fill(bytes, at, end, byte);
    Ok(())
}

fn fill(bytes: &mut [u8], at: usize, end: usize, byte: u8)
    requires order { at ≤ end }
    requires within { end ≤ length bytes.old }
    ensures inside { (i : ℕ) → at ≤ i → i < end → slice_index bytes.new i ≡ byte }
    ensures outside { (i : ℕ) → (i < at) ⊎ (end ≤ i) → slice_index bytes.new i ≡ slice_index bytes.old i }
{
    for i in at..end {
        bytes[i] = byte;
    }
}
