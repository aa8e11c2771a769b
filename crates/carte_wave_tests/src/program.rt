//! Runs of the whole program with several workers.

use crate::bodies::file_of;
use crate::gates::{Meeting, Wide};
use carte_io::{MemDisk, MemSink, MemSource};
use carte_top::{Word, carte};
use carte_value::Seeded;
use carte_wave::Gate;
use std::alloc::Global;
use std::marker::Sync;
use std::str;
use std::test::Fail;
use std::thread::Threads;

const TWO: &str = "[rules]\na = \"1+1\"\nb = \"2+2\"\n";

fn words_of(alloc: Global, text: &str) -> Result<Vec<Word>, Fail> {
    let mut words = Vec::new(alloc);
    for word in text.split(' ') {
        words.push(Word::of(alloc, word)?)?;
    }
    Ok(words)
}

/// The exit status, and what stands on standard output, of a run over the book and a state with these bytes.
fn shown<G: Gate, T: Threads + Sync>(
    rt: &T,
    alloc: Global,
    words: &str,
    state: &[u8],
    gate: &G,
) -> Result<String, Fail> {
    let words = words_of(alloc, words)?;
    let mut state = Box::new(alloc, MemDisk::of(alloc, state, &[])?)?;
    shown_over(rt, alloc, words.as_slice(), &mut state, gate)
}

fn shown_over<G: Gate, T: Threads + Sync>(
    rt: &T,
    alloc: Global,
    words: &[Word],
    state: &mut MemDisk,
    gate: &G,
) -> Result<String, Fail> {
    let mut book = MemSource::of(alloc, TWO.as_bytes(), &[])?;
    let mut script = MemSource::of(alloc, b"build b a", &[])?;
    answer(rt, alloc, words, &mut book, &mut script, state, gate)
}

fn answer<G: Gate, T: Threads + Sync>(
    rt: &T,
    alloc: Global,
    words: &[Word],
    book: &mut MemSource,
    script: &mut MemSource,
    state: &mut MemDisk,
    gate: &G,
) -> Result<String, Fail> {
    let mut out = MemSink::new(alloc, 4096, &[])?;
    let mut err = MemSink::new(alloc, 4096, &[])?;
    let status = carte(
        rt,
        alloc,
        words,
        book,
        script,
        state,
        &mut out,
        &mut err,
        Seeded::of(7),
        gate,
    );
    // In a box, so that one call drops it.
    let code = Box::new(alloc, status)?.code();
    printed(alloc, code, out.bytes())
}

fn printed(alloc: Global, code: u8, out: &[u8]) -> Result<String, Fail> {
    let out = str::from_utf8(out)?;
    Ok(format!(in alloc; "{code} {out}")?)
}

/// The two rules are one wave of two jobs, in two parts, and the two bodies of a state are read in two parts: were one begun only
/// when the other had ended, the test would wait until its time is up.
#[test]
fn program_meets(rt: HostRuntime) -> Result<(), Fail> {
    let meeting = Meeting::new(&rt);
    let text = shown(&rt, rt.alloc(), "build b s a b --workers 2", &[], &meeting)?;
    assert_eq!(&rt;
        text.as_str(),
        "0 a = 2\nb = 4\nran 2, given up 0, reused 0\n"
    );
    assert_eq!(&rt; meeting.pairs(), 1);
    let state = file_of(rt.alloc(), &[1, 2])?;
    let text = shown(&rt, rt.alloc(), "clean b s --workers 2", &state, &meeting)?;
    assert_eq!(&rt; text.as_str(), "0 cleaned\n");
    assert_eq!(&rt; meeting.pairs(), 2);
    Ok(())
}

const RUNS: &[(&str, &str)] = &[
    (
        "build b s b a --workers 7 --list",
        "0 b = 4\na = 2\nran a\nran b\nran 2, given up 0, reused 0\n",
    ),
    (
        "session b s --workers 64",
        "0 b = 4\na = 2\nran 2, given up 0, reused 0\n",
    ),
    (
        "generate b s 1 2 --workers 2",
        "0 keys 2, inputs 1\nk1 = 0\nran 1, given up 0, reused 0\n",
    ),
];

#[test]
fn other_runs_are_those_of_one_worker(rt: HostRuntime) -> Result<(), Fail> {
    for (words, want) in RUNS {
        let text = shown(&rt, rt.alloc(), words, &[], &Wide)?;
        assert_eq!(&rt; text.as_str(), *want, "{words}");
    }
    Ok(())
}
