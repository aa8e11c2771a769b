//! The replies of a session to the lines of a script, and its ends.

use carte_io::{MemSink, MemSource, NoMemory};
use carte_session::{Answer, Machine, SessionEnd, StepEnd, run_session};
use std::alloc::Global;
use std::marker::Sync;
use std::test::Fail;
use std::thread::Threads;

// Answers each line with its number and its text, and ends at a line that says so.
#[derive(Drop)]
struct Echo;

impl Machine<()> for Echo {
    ghost answers = { λ _ _ _ _ _. Unit {0} };

    ghost ends = { λ _ _ _ _ _. Unit {0} };

    ghost goes_on = { λ _. Unit {0} };

    fn step<T: Threads + Sync>(
        &mut self,
        _rt: &T,
        alloc: Global,
        _disk: &mut (),
        number: usize,
        line: &[u8],
    ) -> Result<Answer, StepEnd> {
        if line == b"stop".as_slice() {
            return Err(StepEnd::DiskFault);
        }
        match reply_to(alloc, number, line) {
            Ok(text) => Ok(Answer { text, stays: false }),
            Err(_) => Err(StepEnd::NoMemory),
        }
    }
}

fn reply_to(alloc: Global, number: usize, line: &[u8]) -> Result<String, NoMemory> {
    let mut reply = number.to_string(alloc)?;
    for byte in line {
        reply.push(char::from(*byte))?;
    }
    Ok(reply)
}

#[test]
fn lines_are_answered(rt: HostRuntime) -> Result<(), Fail> {
    let stopped = SessionEnd::Machine(StepEnd::DiskFault);
    for (script, want, end) in [
        (b"".as_slice(), b"".as_slice(), None),
        (b"a\n\nb\n".as_slice(), b"1a23b".as_slice(), None),
        (b"a\n\nbc".as_slice(), b"1a23bc".as_slice(), None),
        (b"a\nb\n\n".as_slice(), b"1a2b3".as_slice(), None),
        (
            b"a\nbcd\n".as_slice(),
            b"1a".as_slice(),
            Some(SessionEnd::TooLong),
        ),
        (b"stop\n".as_slice(), b"".as_slice(), Some(stopped)),
    ] {
        let mut source = MemSource::of(rt.alloc(), script, &[])?;
        let mut sink = MemSink::new(rt.alloc(), 3, &[])?;
        let result = run_session(
            &rt,
            rt.alloc(),
            &mut source,
            &mut Echo,
            &mut (),
            &mut sink,
            5,
        );
        assert_eq!(rt; result.err(), end);
        assert_eq!(rt; sink.bytes(), want);
        assert_eq!(rt; sink.handed(), want.len());
    }
    Ok(())
}
