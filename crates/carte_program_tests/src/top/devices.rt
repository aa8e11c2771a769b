//! Devices that fail.

use crate::top::SUMS;
use crate::top::runs::over;
use carte_io::{MemDisk, MemSource};
use std::alloc::Global;
use std::marker::Sync;
use std::test::Fail;
use std::thread::Threads;

/// What a run shows whose book, state, reply or error line fails at such a call.
fn failing<T: Threads + Sync>(
    rt: &T,
    alloc: Global,
    words: &str,
    read: u64,
    disk: u64,
    write: u64,
    line: u64,
) -> Result<String, Fail> {
    let mut book = MemSource::of(alloc, SUMS.as_bytes(), &[read])?;
    let mut script = MemSource::of(alloc, b"", &[1])?;
    let mut state = MemDisk::of(alloc, &[], &[disk])?;
    over(
        rt,
        alloc,
        words,
        &mut book,
        &mut script,
        &mut state,
        8,
        write,
        line,
    )
}

const BUILD: &str = "build b s total";

// Words; the calls that fail, where 0 is none, of the book, the state, the reply and the error line; and what is shown. The
// script's first read fails. The reply of 39 bytes takes five calls of at most eight bytes, and the call that hands it on.
const CASES: &[(&str, u64, u64, u64, u64, &str)] = &[
    (BUILD, 1, 0, 0, 0, "4\ncarte: a read failed\n"),
    (BUILD, 2, 0, 0, 3, "4\ncarte: a read fa"),
    (BUILD, 0, 1, 0, 0, "6\ncarte: the state's device failed\n"),
    (BUILD, 0, 1, 0, 2, "6\ncarte: t"),
    (BUILD, 0, 0, 1, 0, "5\n"),
    (BUILD, 0, 0, 2, 0, "5\ntotal = "),
    (
        BUILD,
        0,
        0,
        6,
        0,
        "5\ntotal = 60\nran 2, given up 0, reused 0\n",
    ),
    (
        BUILD,
        3,
        0,
        7,
        1,
        "0\ntotal = 60\nran 2, given up 0, reused 0\n",
    ),
    ("build b s", 1, 1, 1, 2, "2\ncarte: u"),
    ("clean b s", 1, 0, 0, 1, "0\ncleaned\n"),
    ("explain b s total", 0, 0, 1, 0, "5\n"),
    ("session b s", 3, 0, 0, 0, "4\ncarte: a read failed\n"),
    ("session b s", 1, 0, 0, 0, "4\ncarte: a read failed\n"),
];

#[test]
fn each_call_may_fail(rt: HostRuntime) -> Result<(), Fail> {
    for (words, read, disk, write, line, want) in CASES {
        let text = failing(&rt, rt.alloc(), words, *read, *disk, *write, *line)?;
        assert_eq!(rt; text.as_str(), *want, "{words}");
    }
    Ok(())
}
