//! States and books that are cut off, or of other bytes.

use crate::runs::{BUILD, PLAIN, by_pieces};
use carte_io::MemDisk;
use std::alloc::Global;
use std::marker::Sync;
use std::process::Abort;
use std::test::Fail;
use std::thread::Threads;

const RAN: &str = "0 B2 = 60\nran 2, given up 0, reused 0\n";

const REUSED: &str = "0 B2 = 60\nran 0, given up 0, reused 2\n";

const BAD: &str = "7 carte: bad state at byte 8\n";

fn built<T: Threads + Sync>(rt: &T, alloc: Global, state: &mut MemDisk) -> Result<String, Fail> {
    by_pieces(rt, alloc, BUILD, PLAIN.as_bytes(), b"", state, 4096)
}

/// What a build shows over a state of so many of the first bytes of another. Nine bytes are a header and a gate that is open or not:
/// with fewer than ten a file is taken for a new one.
fn wanted(length: usize, whole: usize) -> &'static str {
    if length < 10 {
        RAN
    } else if length < whole {
        BAD
    } else {
        REUSED
    }
}

#[test]
fn a_state_is_whole_or_refused(rt: HostRuntime) -> Result<(), Fail> {
    let bytes = first_state(&rt, rt.alloc())?;
    assert_eq!(rt; bytes.len(), 537);
    for length in 0..538 {
        let text = built_over(&rt, rt.alloc(), &bytes[..length])?;
        assert_eq!(rt; text.as_str(), wanted(length, 537), "{length} bytes");
    }
    Ok(())
}

/// The bytes that a first build leaves.
fn first_state<R: Abort + Threads + Sync>(rt: &R, alloc: Global) -> Result<Vec<u8>, Fail> {
    let mut state = Box::new(alloc, MemDisk::of(alloc, &[], &[])?)?;
    let text = built(rt, alloc, &mut state)?;
    assert_eq!(rt; text.as_str(), RAN);
    Ok(state.bytes().to_vec(alloc)?)
}

fn built_over<T: Threads + Sync>(rt: &T, alloc: Global, bytes: &[u8]) -> Result<String, Fail> {
    let mut state = Box::new(alloc, MemDisk::of(alloc, bytes, &[])?)?;
    built(rt, alloc, &mut state)
}

// A state's bytes, and what a build over it shows.
const STATES: &[(&[u8], &str)] = &[
    (
        b"carte\x000\n\x01\0\0\0\x10\x01\0",
        "7 carte: bad state at byte 0\n",
    ),
    (b"CARTE01\n\x01\0\0\0\x10\x01\0", BAD),
    (b"\xff\xff\xff\xff\xff\xff\xff\xff\xff", RAN),
    (
        b"\xff\xff\xff\xff\xff\xff\xff\xff\xff\xff",
        "7 carte: bad state at byte 0\n",
    ),
];

#[test]
fn other_bytes_are_refused(rt: HostRuntime) -> Result<(), Fail> {
    for (bytes, want) in STATES {
        let text = built_over(&rt, rt.alloc(), bytes)?;
        assert_eq!(rt; text.as_str(), *want);
    }
    let mut state = long_state(rt.alloc())?;
    let text = built(&rt, rt.alloc(), &mut state)?;
    assert_eq!(rt; text.as_str(), RAN);
    assert_eq!(rt; state.bytes().len(), 1_000_009);
    let text = built(&rt, rt.alloc(), &mut state)?;
    assert_eq!(rt; text.as_str(), REUSED);
    Ok(())
}

/// Behind a closed gate byte stands nothing: a commit goes over what is there, and the file stays as long as it is.
fn long_state(alloc: Global) -> Result<Box<MemDisk>, Fail> {
    let mut bytes = b"CARTE01\n\0".to_vec(alloc)?;
    let behind = vec![in alloc; 0xffu8; 1_000_000]?;
    bytes.extend_from_slice(&behind)?;
    Ok(Box::new(alloc, MemDisk::of(alloc, &bytes, &[])?)?)
}

/// Which cell is asked for hangs on another one.
const DYNAMIC: &str = "10,\"=IF(C1=1,B2,A2)\",1\n20,\"=IF(C1=1,A1,B1)\"\n";

#[test]
fn a_book_is_read_or_refused(rt: HostRuntime) -> Result<(), Fail> {
    let bytes = DYNAMIC.as_bytes();
    for length in 0..bytes.len() + 1 {
        let text = built_of(&rt, rt.alloc(), &bytes[..length])?;
        assert!(rt; is_answer(text.as_str()), "{length} bytes: {text}");
    }
    Ok(())
}

/// What a build of these bytes shows.
fn built_of<T: Threads + Sync>(rt: &T, alloc: Global, book: &[u8]) -> Result<String, Fail> {
    let mut state = Box::new(alloc, MemDisk::of(alloc, &[], &[])?)?;
    by_pieces(rt, alloc, "build q.csv s B1", book, b"", &mut state, 4096)
}

fn is_answer(text: &str) -> bool {
    text.starts_with("0 ") || text.starts_with("1 ") || text.starts_with("3 ")
}
