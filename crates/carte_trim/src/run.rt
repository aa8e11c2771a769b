// A run, but for its error line.
ghost use Rattle.std.specs.Prelude.{◌≡◌, ◌≤◌, length};
ghost use Rattle.carte_record.specs.Kept.{kept_view};
ghost use Rattle.carte_trim.specs.Around.{over_disk, over_part, over_sink};
ghost use Rattle.carte_trim.specs.Outcome.{IsRun};
ghost use Rattle.carte_trim.specs.Parts.{LoadsState, RunsFor, RunsOver, unloaded_of};

use crate::Status;
use crate::answer::answer;
use crate::make::make;
use crate::plan::MOST_STATE;
use crate::trimmed::trimmed;
use crate::words::count_of;
use carte_io::{Disk, Sink};
use carte_record::Kept;
use carte_state::{LoadFault, State};
use carte_value::Seeded;
use carte_words::Word;
use std::alloc::Global;

/// A new state's file has at most so many bytes.
const MOST_NEW: u64 = 9;

pub(crate) fn run<S: Disk, N: Disk, O: Sink>(
    alloc: Global,
    words: &[Word],
    state: &mut S,
    new: &mut N,
    out: &mut O,
    hasher: Seeded,
) -> Status
    ensures { IsRun 536870912 words.now
        (over_disk S.tells S.story S.faults state.old state.new)
        (over_disk N.tells N.story N.faults new.old new.new)
        (over_sink O.tells O.state out.old out.new)
        result }
{
    match count_of(words) {
        Some(count) => run_for(alloc, count, state, new, out, hasher),
        None => Status::Usage,
    }
}

fn run_for<S: Disk, N: Disk, O: Sink>(
    alloc: Global,
    count: u64,
    state: &mut S,
    new: &mut N,
    out: &mut O,
    hasher: Seeded,
) -> Status
    ensures { RunsFor 536870912 count
        (over_disk S.tells S.story S.faults state.old state.new)
        (over_disk N.tells N.story N.faults new.old new.new)
        (over_sink O.tells O.state out.old out.new)
        result }
{
    match load(alloc, state, hasher) {
        Ok((loaded, length)) => run_over(alloc, count, loaded.kept(), length, new, out),
        Err(status) => status,
    }
}

// What the state keeps, where it is of version 2, and the length of its file.
fn load<S: Disk>(alloc: Global, state: &mut S, hasher: Seeded) -> Result<(State, u64), Status>
    ensures { LoadsState 536870912 (over_disk S.tells S.story S.faults state.old state.new) result }
{
    match State::load(alloc, state, MOST_STATE, hasher) {
        Ok(loaded) => {
            if loaded.is_old() {
                return Err(Status::OldState);
            }
            match state.len() {
                Ok(length) => Ok((loaded, length)),
                Err(_) => Err(Status::StateFault),
            }
        }
        Err(fault) => Err(unloaded(fault)),
    }
}

fn unloaded(fault: LoadFault) -> Status
    ensures { result ≡ unloaded_of fault }
{
    match fault {
        LoadFault::DiskFault => Status::StateFault,
        LoadFault::BadState(offset) => Status::BadState(offset),
        LoadFault::NoMemory => Status::NoMemory,
    }
}

// Over what the state keeps.
fn run_over<N: Disk, O: Sink>(
    alloc: Global,
    count: u64,
    kept: &Kept,
    of_bytes: u64,
    new: &mut N,
    out: &mut O,
) -> Status
    ensures { RunsOver 536870912 count (kept_view kept.now) of_bytes
        (over_part N.tells N.story N.faults new.old new.new)
        (over_sink O.tells O.state out.old out.new)
        result }
{
    match new.len() {
        Ok(length) if length <= MOST_NEW => run_new(alloc, count, kept, of_bytes, new, out),
        Ok(_) => Status::NotNew,
        Err(_) => Status::NewFault,
    }
}

// And over a new file.
fn run_new<N: Disk, O: Sink>(
    alloc: Global,
    count: u64,
    kept: &Kept,
    of_bytes: u64,
    new: &mut N,
    out: &mut O,
) -> Status
    requires { N.tells → length (N.story new.old).now.reads ≤ 9 }
    ensures { RunsOver 536870912 count (kept_view kept.now) of_bytes
        (over_part N.tells N.story N.faults new.old new.new)
        (over_sink O.tells O.state out.old out.new)
        result }
{
    match trimmed(alloc, kept, count) {
        Ok(left) => match make(alloc, &left.kept, new) {
            Ok(bytes) => answer(alloc, left.counts, bytes, of_bytes, out),
            Err(status) => status,
        },
        Err(_) => Status::NoMemory,
    }
}
