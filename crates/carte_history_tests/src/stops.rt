//! Runs that are cut off behind so many writing calls.

use crate::runs::{BUILD, EDITED, PLAIN, runs_of, told};
use carte_history::{Run, Shown, Stop, history};
use carte_io::{NoGate, Pick};
use carte_value::Seeded;
use std::alloc::Global;
use std::marker::Sync;
use std::process::Abort;
use std::test::Fail;
use std::thread::Threads;

const SCHEDULERS: [&str; 3] = ["topological", "restarting", "suspending"];

const REBUILDERS: [&str; 4] = ["dirty", "verifying", "constructive", "deep"];

const PICKS: [Pick; 4] = [Pick::Lost, Pick::Kept, Pick::Fill(0x77), Pick::Fill(0x01)];

/// What the runs show, one after another.
fn shown<T: Threads + Sync>(rt: &T, alloc: Global, runs: &[Run]) -> Result<Vec<String>, Fail> {
    let mut texts = Vec::new(alloc);
    for one in history(rt, alloc, runs, Seeded::of(7), &NoGate)?.iter() {
        texts.push(told(alloc, one)?)?;
    }
    Ok(texts)
}

/// A build, one of the edited book that is stopped, and that one again: whether the second was stopped, and what the third shows.
fn stopped<T: Threads + Sync>(
    rt: &T,
    alloc: Global,
    words: &str,
    stop: Stop,
) -> Result<(bool, String), Fail> {
    let rows = [
        (words, PLAIN, Stop::None),
        (words, EDITED, stop),
        (words, EDITED, Stop::None),
    ];
    let runs = runs_of(alloc, &rows)?;
    let texts = shown(rt, alloc, runs.as_slice())?;
    let last = String::from_str(alloc, text_at(&texts, 2))?;
    Ok((text_at(&texts, 1).starts_with("6 "), last))
}

/// How many stops of such a pairing there are, with one pick, until a run isn't stopped.
fn stops_of<T: Abort + Threads + Sync>(
    rt: &T,
    alloc: Global,
    words: &str,
    pick: Pick,
) -> Result<u64, Fail> {
    for calls in 0..100 {
        let (cut, last) = stopped(rt, alloc, words, Stop::After(calls, pick))?;
        assert!(rt;
            last.starts_with("0 B2 = 62\nran "),
            "{words} after {calls}: {last}"
        );
        if !cut {
            return Ok(calls);
        }
    }
    Ok(100)
}

/// Each commit makes four writing calls, and all that the edited build brings is one.
#[test]
fn a_run_after_each_stop_is_right(rt: HostRuntime) -> Result<(), Fail> {
    for scheduler in SCHEDULERS {
        for rebuilder in REBUILDERS {
            let words = format!(in rt.alloc();
                "{BUILD} --scheduler {scheduler} --rebuilder {rebuilder}"
            )?;
            each_pick(&rt, rt.alloc(), words.as_str())?;
        }
    }
    Ok(())
}

fn each_pick<R: Abort + Threads + Sync>(rt: &R, alloc: Global, words: &str) -> Result<(), Fail> {
    for pick in PICKS {
        let stops = stops_of(rt, alloc, words, pick)?;
        assert_eq!(rt; stops, 4, "{words}");
    }
    Ok(())
}

const RAN: &str = "0 B2 = 60\nran 2, given up 0, reused 0\n";

const REUSED: &str = "0 B2 = 60\nran 0, given up 0, reused 2\n";

// How many writing calls pass, and what a second run shows where what wasn't synced is lost, or kept, or filled with bytes that are no
// gate, or that are an open one. The six calls are the write of the header, its sync, the write of the frame, its sync, the write of
// the gate byte, its sync.
const FIRST: &[(u64, [&str; 4])] = &[
    (0, [RAN, RAN, RAN, RAN]),
    (1, [RAN, RAN, RAN, RAN]),
    (2, [RAN, RAN, RAN, RAN]),
    (3, [RAN, RAN, RAN, RAN]),
    (4, [RAN, RAN, RAN, RAN]),
    (5, [RAN, REUSED, RAN, REUSED]),
    (6, [REUSED, REUSED, REUSED, REUSED]),
];

fn text_at(texts: &[String], at: usize) -> &str {
    match texts.get(at) {
        Some(text) => text.as_str(),
        None => "no such run",
    }
}

#[test]
fn crashes_of_the_first_commit(rt: HostRuntime) -> Result<(), Fail> {
    for (calls, wanted) in FIRST {
        for (pick, want) in PICKS.iter().zip(wanted.iter()) {
            check_crash(&rt, rt.alloc(), *calls, *pick, want)?;
        }
    }
    Ok(())
}

fn check_crash<R: Abort + Threads + Sync>(
    rt: &R,
    alloc: Global,
    calls: u64,
    pick: Pick,
    want: &str,
) -> Result<(), Fail> {
    let texts = crashed(rt, alloc, Stop::After(calls, pick))?;
    let first = if calls < 6 { "6 " } else { RAN };
    assert_eq!(rt; text_at(&texts, 0), first, "{calls}, {pick:?}");
    assert_eq!(rt; text_at(&texts, 1), want, "{calls}, {pick:?}");
    Ok(())
}

/// What a first build that is stopped shows, and the next one.
fn crashed<T: Threads + Sync>(rt: &T, alloc: Global, stop: Stop) -> Result<Vec<String>, Fail> {
    let runs = runs_of(alloc, &[(BUILD, PLAIN, stop), (BUILD, PLAIN, Stop::None)])?;
    shown(rt, alloc, runs.as_slice())
}

/// What a run shows: the line on standard error, and the state's bytes as the next run finds them.
#[test]
fn a_history_shows_its_files(rt: HostRuntime) -> Result<(), Fail> {
    let files = three_files(&rt, rt.alloc())?;
    assert_eq!(rt; files.len(), 3);
    has_line(&rt, &files[0], b"carte: usage: no target\n");
    assert_eq!(rt; files[0].image.len(), 0);
    has_line(&rt, &files[1], b"");
    assert_eq!(rt; files[1].image.len(), 537);
    has_line(&rt, &files[2], b"carte: the state's device failed\n");
    assert_eq!(rt; files[2].image.as_slice(), files[1].image.as_slice());
    any_length(&rt, rt.alloc())
}

fn has_line<R: Abort>(rt: &R, shown: &Shown, line: &[u8]) {
    assert_eq!(rt; shown.err.as_slice(), line);
}

fn three_files<T: Threads + Sync>(rt: &T, alloc: Global) -> Result<Vec<Shown>, Fail> {
    let rows = [
        ("build p.csv s", PLAIN, Stop::None),
        (BUILD, PLAIN, Stop::None),
        (BUILD, EDITED, Stop::After(0, Pick::Lost)),
    ];
    let runs = runs_of(alloc, &rows)?;
    Ok(history(rt, alloc, runs.as_slice(), Seeded::of(7), &NoGate)?)
}

fn any_length<R: Abort + Threads + Sync>(rt: &R, alloc: Global) -> Result<(), Fail> {
    let none = shown(rt, alloc, &[])?;
    assert_eq!(rt; none.len(), 0);
    let texts = three_texts(rt, alloc)?;
    assert_eq!(rt; texts.len(), 3);
    assert_eq!(rt; text_at(&texts, 0), "6 ");
    assert_eq!(rt; text_at(&texts, 1), RAN);
    assert_eq!(rt; text_at(&texts, 2), REUSED);
    Ok(())
}

fn three_texts<T: Threads + Sync>(rt: &T, alloc: Global) -> Result<Vec<String>, Fail> {
    let rows = [
        (BUILD, PLAIN, Stop::After(5, Pick::Fill(0x77))),
        (BUILD, PLAIN, Stop::None),
        (BUILD, PLAIN, Stop::None),
    ];
    let runs = runs_of(alloc, &rows)?;
    shown(rt, alloc, runs.as_slice())
}
