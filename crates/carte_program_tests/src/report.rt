//! The lines that no test of a whole run comes to.

use carte_explain::Why;
use carte_report::{Status, error_line, memory_line, why_line};
use carte_value::{Digest, Name};
use std::alloc::Global;
use std::test::Fail;

fn status(at: usize) -> Status {
    match at {
        0 => Status::ReadFault,
        1 => Status::DiskFault,
        2 => Status::BadState(18446744073709551615),
        3 => Status::StateFull(4294967296, 1073741824),
        4 => Status::ScriptTooLong,
        _ => Status::NoMemory,
    }
}

fn numbered(alloc: Global, at: usize) -> Result<String, Fail> {
    // In a box, so that one call drops it.
    let status = Box::new(alloc, status(at))?;
    let line = error_line(alloc, &status)?;
    Ok(format!(in alloc; "{} {}", status.code(), line)?)
}

const LINES: [&str; 6] = [
    "4 carte: a read failed\n",
    "6 carte: the state's device failed\n",
    "7 carte: bad state at byte 18446744073709551615\n",
    "8 carte: state full: 4294967296 bytes needed, limit 1073741824\n",
    "10 carte: script longer than 67108864 bytes\n",
    "9 carte: out of memory\n",
];

#[test]
fn statuses_have_numbers_and_lines(rt: HostRuntime) -> Result<(), Fail> {
    for (at, want) in LINES.iter().enumerate() {
        let line = numbered(rt.alloc(), at)?;
        assert_eq!(rt; line.as_str(), *want);
    }
    assert_eq!(rt; memory_line(), "carte: out of memory\n");
    Ok(())
}

fn cause(at: usize) -> Why {
    match at {
        0 => Why::Input,
        1 => Why::Reusable,
        2 => Why::NoTrace,
        3 => Why::StoredDiffers {
            stored: Digest([10; 32]),
            result: Digest([255; 32]),
        },
        4 => Why::NoEntry,
        5 => Why::Stale,
        _ => Why::Shallow,
    }
}

fn told(alloc: Global, at: usize) -> Result<String, Fail> {
    let key = Name::exact(alloc, "B1")?;
    Ok(why_line(alloc, &key, &cause(at))?)
}

const CAUSES: [&str; 7] = [
    "B1 is an input\n",
    "B1 reusable\n",
    "B1 runs: no record\n",
    "B1 runs: stored value differs\n",
    "B1 runs: no entry\n",
    "B1 runs: entry marked stale\n",
    "B1 runs: entry is shallow\n",
];

#[test]
fn causes_are_told(rt: HostRuntime) -> Result<(), Fail> {
    for (at, want) in CAUSES.iter().enumerate() {
        let line = told(rt.alloc(), at)?;
        assert_eq!(rt; line.as_str(), *want);
    }
    Ok(())
}
