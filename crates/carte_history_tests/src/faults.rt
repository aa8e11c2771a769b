//! Sessions of which one call of a device fails.

use crate::runs::{BUILD, EDITED, PLAIN, answer, by_pieces};
use carte_io::{MemDisk, MemSink, MemSource};
use std::alloc::Global;
use std::marker::Sync;
use std::process::Abort;
use std::str;
use std::test::Fail;
use std::thread::Threads;

const SESSION: &str = "session p.csv s";

const SCRIPT: &str = "set A1 11\nbuild B2\nset B1 3\nbuild B2\nclean\nbuild B2";

const REPLIES: &str =
    "set A1\nB2 = 62\nran 2, given up 0, reused 0\nnot set: B1 is a rule\nB2 = 62\nran 0, given up 0, reused 2\ncleaned\nB2 = 62\nran 2, given up 0, reused 0\n";

/// A device of which a call fails.
#[derive(Clone, Copy, Debug, PartialEq)]
enum Device {
    Book,
    Script,
    State,
    Out,
}

// The call that fails of this device, where it is the other one; none has the number 0.
fn call_of(device: Device, other: Device, call: u64) -> u64 {
    if device == other { call } else { 0 }
}

/// The status and the output of the session of which such a call fails.
fn failing<T: Threads + Sync>(
    rt: &T,
    alloc: Global,
    device: Device,
    call: u64,
    state: &mut MemDisk,
) -> Result<(u8, String), Fail> {
    let book = [call_of(Device::Book, device, call)];
    let script = [call_of(Device::Script, device, call)];
    let out = [call_of(Device::Out, device, call)];
    let mut book = MemSource::of(alloc, PLAIN.as_bytes(), &book)?;
    let mut script = MemSource::slow(alloc, SCRIPT.as_bytes(), 9, &script)?;
    said(rt, alloc, &mut book, &mut script, state, &out)
}

/// The same over these sources, where such calls of standard output fail.
fn said<T: Threads + Sync>(
    rt: &T,
    alloc: Global,
    book: &mut MemSource,
    script: &mut MemSource,
    state: &mut MemDisk,
    failing: &[u64],
) -> Result<(u8, String), Fail> {
    let mut out = MemSink::new(alloc, 16, failing)?;
    let (code, _) = answer(rt, alloc, SESSION, book, script, state, &mut out, 4096)?;
    let text = String::from_str(alloc, str::from_utf8(out.bytes())?)?;
    Ok((code, text))
}

/// How many calls of the device the session makes, each of which fails in turn: with that device's status, behind a front of the
/// replies, and a run after it gives the session's values.
fn fail_each<T: Abort + Threads + Sync>(
    rt: &T,
    alloc: Global,
    device: Device,
    code: u8,
) -> Result<u64, Fail> {
    for call in 1..100 {
        let (status, text) = fail_at(rt, alloc, device, call)?;
        if status == 0 {
            assert_eq!(rt; text.as_str(), REPLIES);
            return Ok(call - 1);
        }
        assert_eq!(rt; status, code, "{device:?} {call}");
        assert!(rt;
            REPLIES.starts_with(text.as_str()),
            "{device:?} {call}: {text}"
        );
    }
    Ok(100)
}

fn fail_at<T: Abort + Threads + Sync>(
    rt: &T,
    alloc: Global,
    device: Device,
    call: u64,
) -> Result<(u8, String), Fail> {
    let failed = call_of(Device::State, device, call);
    let mut state = Box::new(alloc, MemDisk::of(alloc, &[], &[failed])?)?;
    let shown = failing(rt, alloc, device, call, &mut state)?;
    let next = next_run(rt, alloc, state.bytes())?;
    assert!(rt;
        next.starts_with("0 B2 = 62\n"),
        "{device:?} {call}: {next}"
    );
    Ok(shown)
}

/// What a build of the edited book shows over a state with these bytes.
fn next_run<T: Threads + Sync>(rt: &T, alloc: Global, bytes: &[u8]) -> Result<String, Fail> {
    let mut state = Box::new(alloc, MemDisk::of(alloc, bytes, &[])?)?;
    by_pieces(rt, alloc, BUILD, EDITED.as_bytes(), b"", &mut state, 4096)
}

// The book and its end; the script by nine bytes a call and its end; the state's length, and the calls of the three commits; the
// replies in pieces of sixteen bytes, each of which is handed on.
const CALLS: [(Device, u8, u64); 4] = [
    (Device::Book, 4, 2),
    (Device::Script, 4, 7),
    (Device::State, 6, 15),
    (Device::Out, 5, 19),
];

#[test]
fn each_call_of_a_session_may_fail(rt: HostRuntime) -> Result<(), Fail> {
    for (device, code, calls) in CALLS {
        let made = fail_each(&rt, rt.alloc(), device, code)?;
        assert_eq!(rt; made, calls, "{device:?}");
    }
    let (status, text) = unsynced(&rt, rt.alloc())?;
    assert_eq!(rt; (status, text.as_str()), (6, "set A1\n"));
    Ok(())
}

/// The last sync of the first commit fails: its reply isn't written.
fn unsynced<T: Threads + Sync>(rt: &T, alloc: Global) -> Result<(u8, String), Fail> {
    let mut state = Box::new(alloc, MemDisk::of(alloc, &[], &[7])?)?;
    failing(rt, alloc, Device::State, 0, &mut state)
}
