// One run of a history.
ghost use Rattle.std.specs.Prelude.{◌≡◌, ◌↔◌, ◌-◌, ◌^◌, [], IfOk, IsTrue, OnOk};
ghost use Rattle.carte_io.specs.MemDisks.{begun_disk, story_of};
ghost use Rattle.carte_io.specs.Memory.{holding};
ghost use Rattle.carte_history.specs.Shown.{IsAnswered, IsLeft, IsNext, IsShown, IsStopped, Ran, pick_of, stopped_by};

use crate::{Run, Shown, Stop};
use carte_io::{Disk, Gate, MemDisk, MemSink, MemSource, Pick};
use carte_report::Status;
use carte_top::carte;
use carte_value::{NoMemory, Seeded};
use std::alloc::Global;
use std::marker::Sync;
use std::thread::Threads;

/// The most bytes that a call of an output takes.
const MOST: usize = 65_536;

/// Makes a run over a disk of which no call was made, which is then the one that the next run finds.
///
/// What is made on the way goes on to the functions below, which borrow it, so that few values are dropped at each way out.
pub(crate) fn show<G: Gate, T: Threads + Sync>(
    rt: &T,
    alloc: Global,
    run: &Run,
    disk: &mut MemDisk,
    hasher: Seeded,
    gate: &G,
) -> Result<Shown, NoMemory>
    requires begun { disk.old ≡ begun_disk disk.old.first [] }
    ensures { IfOk result (λ s. (disk.new ≡ begun_disk s.image.items []) × (ran : Ran) × IsShown 536870912 disk.old.first run.now s ran) }
{
    stop(disk, run.stop);
    let mut book = MemSource::of(alloc, &run.book, &[])?;
    let mut script = MemSource::of(alloc, &run.script, &[])?;
    show_over(rt, alloc, run, &mut book, &mut script, disk, hasher, gate)
}

// The same over sources of the run's book and script, and a disk that was told where to stop.
fn show_over<G: Gate, T: Threads + Sync>(
    rt: &T,
    alloc: Global,
    run: &Run,
    book: &mut MemSource,
    script: &mut MemSource,
    disk: &mut MemDisk,
    hasher: Seeded,
    gate: &G,
) -> Result<Shown, NoMemory>
    requires book { book.old ≡ holding run.now.book.items (2 ^ 64 - 1) [] }
    requires script { script.old ≡ holding run.now.script.items (2 ^ 64 - 1) [] }
    requires stops { disk.old ≡ stopped_by run.now.stop (begun_disk disk.old.first []) }
    ensures { IfOk result (λ s. (disk.new ≡ begun_disk s.image.items []) × (ran : Ran) × IsShown 536870912 disk.old.first run.now s ran) }
{
    let mut out = MemSink::new(alloc, MOST, &[])?;
    let mut err = MemSink::new(alloc, MOST, &[])?;
    let status = carte(
        rt, alloc, &run.words, book, script, disk, &mut out, &mut err, hasher, gate,
    );
    end(
        alloc,
        run.stop,
        status,
        out.bytes(),
        err.bytes(),
        err.faults(),
        disk,
    )
}

// What is shown of a run that ended so, with the bytes that its outputs took and the failures of standard error. The disk is then
// the one that a crash leaves.
fn end(
    alloc: Global,
    stop: Stop,
    status: Status,
    out: &[u8],
    err: &[u8],
    faults: u64,
    disk: &mut MemDisk,
) -> Result<Shown, NoMemory>
    ensures { IfOk result (IsLeft stop status out.now err.now faults disk.old disk.new) }
{
    // In a box, so that one call drops it.
    let status = Box::new(alloc, status)?;
    let left = bytes_left(alloc, stop, &status, out, err, faults, disk)?;
    Ok(Shown {
        status: Box::into_inner(status),
        out: left.0,
        err: left.1,
        image: left.2,
    })
}

// Copies of the bytes that both outputs took, and those that the next run finds.
fn bytes_left(
    alloc: Global,
    stop: Stop,
    status: &Status,
    out: &[u8],
    err: &[u8],
    faults: u64,
    disk: &mut MemDisk,
) -> Result<(Vec<u8>, Vec<u8>, Vec<u8>), NoMemory>
    ensures answered { OnOk result (IsAnswered status.now stop (story_of disk.old).now.passed faults) }
    ensures copies { IfOk result (λ left. (left.0.items ≡ out.now) × (left.1.items ≡ err.now)) }
    ensures next { IfOk result (λ left. IsNext stop disk.old disk.new left.2.items) }
{
    if !is_answered(status, stop, disk.passed(), faults) {
        return Err(NoMemory);
    }
    begin_next(alloc, stop, disk)?;
    let out = out.to_vec(alloc)?;
    let err = err.to_vec(alloc)?;
    Ok((out, err, disk.bytes().to_vec(alloc)?))
}

// The disk is then the one that a crash leaves.
fn begin_next(alloc: Global, stop: Stop, disk: &mut MemDisk) -> Result<(), NoMemory>
    ensures { OnOk result (IsNext stop disk.old disk.new disk.new.first) }
{
    let next = disk.crash(alloc, pick_of(stop))?;
    *disk = next;
    Ok(())
}

fn stop(disk: &mut MemDisk, stop: Stop)
    ensures { disk.new ≡ stopped_by stop disk.old }
{
    if let Stop::After(calls, _) = stop {
        disk.stop_after(calls);
    }
}

// What the next run finds where none is cut off: all that was written.
fn pick_of(stop: Stop) -> Pick
    ensures { result ≡ pick_of stop }
{
    match stop {
        Stop::None => Pick::Kept,
        Stop::After(_, pick) => pick,
    }
}

// Whether no device failed but by the stop.
fn is_answered(status: &Status, stop: Stop, passed: u64, faults: u64) -> bool
    ensures { IsTrue result ↔ IsAnswered status.now stop passed faults }
{
    if faults > 0 {
        return false;
    }
    match status {
        Status::ReadFault | Status::WriteFault => false,
        Status::DiskFault => is_stopped(stop, passed),
        _ => true,
    }
}

fn is_stopped(stop: Stop, passed: u64) -> bool
    ensures { IsTrue result ↔ IsStopped stop passed }
{
    match stop {
        Stop::None => false,
        Stop::After(calls, _) => passed >= calls,
    }
}
