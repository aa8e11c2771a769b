//! States whose bodies are read by so many workers.

use crate::gates::{Counting, Meeting};
use carte_io::{Gate, MemDisk};
use carte_state::{LoadFault, State};
use carte_value::{NoMemory, Seeded};
use std::alloc::Global;
use std::marker::Sync;
use std::process::Abort;
use std::test::Fail;
use std::thread::Threads;

/// What a file begins with, a batch that brings a number below 256, but for the number, and what is behind that.
const HEADER: &[u8] = b"CARTE01\n";

const FRONT: &[u8] = b"\x03\0\0\0\0\x01\x01\0\0\0\0\0\0\0";

const BACK: &[u8] = b"\0\0\0\0\0\0\0\0\0\0\0\0\0\0\0\0\0\0\0\0\0\0\0\0\0\0\0\0\0";

/// A file with a frame for each number: its batch in 49 bytes, or for 0 a body of one byte that is no batch, in 6.
pub(crate) fn file_of(alloc: Global, numbers: &[u8]) -> Result<Vec<u8>, NoMemory> {
    let mut file = HEADER.to_vec(alloc)?;
    for number in numbers {
        if *number == 0 {
            file.extend_from_slice(b"\x01\0\0\0\x01\x07")?;
        } else {
            file.extend_from_slice(b"\x01\0\0\0\x2c")?;
            file.extend_from_slice(FRONT)?;
            file.push(*number)?;
            file.extend_from_slice(BACK)?;
        }
    }
    file.push(0)?;
    Ok(file)
}

/// The numbers that the file keeps, in their order, or why it isn't loaded.
fn loaded<G: Gate, T: Threads + Sync>(
    rt: &T,
    alloc: Global,
    numbers: &[u8],
    workers: usize,
    gate: &G,
) -> Result<String, Fail> {
    let file = file_of(alloc, numbers)?;
    let mut disk = Box::new(alloc, MemDisk::of(alloc, &file, &[])?)?;
    loaded_from(rt, alloc, &mut disk, workers, gate)
}

fn loaded_from<G: Gate, T: Threads + Sync>(
    rt: &T,
    alloc: Global,
    disk: &mut MemDisk,
    workers: usize,
    gate: &G,
) -> Result<String, Fail> {
    match State::load_by(rt, alloc, disk, 1 << 20, Seeded::of(7), workers, gate) {
        Ok(state) => {
            // In a box, so that one call drops it.
            let state = Box::new(alloc, state)?;
            listed(alloc, &state)
        }
        Err(LoadFault::BadState(offset)) => Ok(format!(in alloc; "bad at {offset}")?),
        Err(_) => Err(Fail::new("it isn't loaded")),
    }
}

fn listed(alloc: Global, state: &State) -> Result<String, Fail> {
    let mut text = String::new(alloc);
    for value in state.kept().values.as_slice() {
        text.push_str(value.print(alloc)?.as_str())?;
        text.push_str(" ")?;
    }
    Ok(text)
}

/// Files, and what they keep. Parts of them have several lengths.
const FILES: &[(&[u8], &str)] = &[
    (&[], ""),
    (&[7], "7 "),
    (&[1, 2, 3, 4, 5, 6, 7, 8, 9], "1 2 3 4 5 6 7 8 9 "),
    (&[1, 0, 0], "bad at 57"),
    (&[1, 2, 3, 4, 5, 6, 0, 8, 9], "bad at 302"),
    (&[1, 2, 0, 4, 5, 6, 0, 8, 0], "bad at 106"),
];

#[test]
fn bodies_are_read_by_any_number(rt: HostRuntime) -> Result<(), Fail> {
    let alloc = rt.alloc();
    for (numbers, want) in FILES {
        for workers in [1, 2, 3, 7, 64] {
            read_as(&rt, alloc, numbers, workers, false, want)?;
            read_as(&rt, alloc, numbers, workers, true, want)?;
        }
    }
    Ok(())
}

fn read_as<R: Abort + Threads + Sync>(
    rt: &R,
    alloc: Global,
    numbers: &[u8],
    workers: usize,
    all: bool,
    want: &str,
) -> Result<(), Fail> {
    let text = loaded(rt, alloc, numbers, workers, &Counting::of(all))?;
    assert_eq!(rt; text.as_str(), want, "{workers}");
    Ok(())
}

/// How often each part was entered, a digit a part.
fn entered<T: Threads + Sync>(
    rt: &T,
    alloc: Global,
    numbers: &[u8],
    workers: usize,
    all: bool,
) -> Result<u64, Fail> {
    let counting = Counting::of(all);
    loaded(rt, alloc, numbers, workers, &counting)?;
    Ok(counting.entered())
}

const NINE: &[u8] = &[1, 2, 3, 4, 5, 6, 7, 8, 9];

/// Files, workers, whether the gate asks for all parts, and how often each is entered: once, and few bodies are one part where the
/// gate doesn't ask for more.
const PARTS: &[(&[u8], usize, bool, u64)] = &[
    (NINE, 7, false, 1),
    (NINE, 1, true, 1),
    (NINE, 2, true, 11),
    (NINE, 7, true, 1_111_111),
    (&[1, 0], 64, true, 11),
    (&[], 2, true, 0),
];

#[test]
fn parts_of_bodies_are_entered_once(rt: HostRuntime) -> Result<(), Fail> {
    for (numbers, workers, all, want) in PARTS {
        let parts = entered(&rt, rt.alloc(), numbers, *workers, *all)?;
        assert_eq!(&rt; parts, *want, "{workers}");
    }
    Ok(())
}

/// Two bodies in two parts: were one read only when the other had been, the test would wait until its time is up.
#[test]
fn two_bodies_meet(rt: HostRuntime) -> Result<(), Fail> {
    let meeting = Meeting::new(&rt);
    let text = loaded(&rt, rt.alloc(), &[1, 2], 2, &meeting)?;
    assert_eq!(&rt; text.as_str(), "1 2 ");
    assert_eq!(&rt; meeting.pairs(), 1);
    Ok(())
}
