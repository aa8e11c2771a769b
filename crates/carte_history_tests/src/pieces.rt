//! Single bytes in and out.

use crate::runs::{BUILD, PLAIN, by_pieces};
use carte_io::MemDisk;
use std::alloc::Global;
use std::marker::Sync;
use std::test::Fail;
use std::thread::Threads;

const SESSION: &str = "session p.csv s";

// Words, a script, and what is shown.
const RUNS: &[(&str, &str, &str)] = &[
    (BUILD, "", "0 B2 = 60\nran 2, given up 0, reused 0\n"),
    (
        SESSION,
        "set A1 11\nbuild B2\nset B1 3\nbuild B2\nclean\nbuild B2",
        "0 set A1\nB2 = 62\nran 2, given up 0, reused 0\nnot set: B1 is a rule\nB2 = 62\nran 0, given up 0, reused 2\ncleaned\nB2 = 62\nran 2, given up 0, reused 0\n",
    ),
    (SESSION, "frobnicate", "0 line 1: not understood\n"),
    (SESSION, "", "0 "),
    (
        SESSION,
        "set Z9 \"a\\nb\"\nbuild Z9\n",
        "0 set Z9\nZ9 = \"a\\nb\"\nran 0, given up 0, reused 0\n",
    ),
];

#[test]
fn single_bytes_are_as_good_as_many(rt: HostRuntime) -> Result<(), Fail> {
    for (words, script, want) in RUNS {
        for most in [1, 2, 4096] {
            let text = shown(&rt, rt.alloc(), words, script, most)?;
            assert_eq!(rt; text.as_str(), *want, "{words}, {most} bytes a call");
        }
    }
    Ok(())
}

/// What such a run shows over an empty state.
fn shown<T: Threads + Sync>(
    rt: &T,
    alloc: Global,
    words: &str,
    script: &str,
    most: usize,
) -> Result<String, Fail> {
    let mut state = Box::new(alloc, MemDisk::of(alloc, &[], &[])?)?;
    by_pieces(
        rt,
        alloc,
        words,
        PLAIN.as_bytes(),
        script.as_bytes(),
        &mut state,
        most,
    )
}
