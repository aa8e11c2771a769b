// What is written: the reply, and the error line.
ghost use Rattle.std.specs.Prelude.{◌≡◌, ◌++◌, false, IfSome, IfNone};
ghost use Rattle.carte_report.specs.declared.status.Status.TheVariants.{NoMemory};
ghost use Rattle.carte_report.specs.Texts.{error_line};
ghost use Rattle.carte_top.specs.Around.{over_sink, Says};
ghost use Rattle.carte_top.specs.Outcome.{Ended};
ghost use Rattle.carte_top.specs.Running.{Prints, Reports, is_spoken, is_brief};

use carte_io::{Sink, write_all};
use carte_report::{Status, error_line, memory_line};
use std::alloc::Global;

/// Writes what stands in front and then the whole reply, and hands both on.
pub(crate) fn print<O: Sink>(out: &mut O, front: &[u8], bytes: &[u8]) -> Status
    ensures { Prints (front.now ++ bytes.now) (over_sink O.tells O.state out.old out.new) result }
{
    match write_all(out, front) {
        Ok(()) => print_reply(out, bytes),
        Err(_) => Status::WriteFault,
    }
}

fn print_reply<O: Sink>(out: &mut O, bytes: &[u8]) -> Status
    ensures { Prints bytes.now (over_sink O.tells O.state out.old out.new) result }
{
    match write_all(out, bytes) {
        Ok(()) => match out.finish() {
            Ok(()) => Status::Done,
            Err(_) => Status::WriteFault,
        },
        Err(_) => Status::WriteFault,
    }
}

/// Writes the error line of a status, where it has one. Where there is no memory for the line, that is the status; the
/// lines of devices' faults need none.
pub(crate) fn report<E: Sink>(alloc: Global, err: &mut E, status: Status) -> Status
    ensures reports { Reports status result }
    ensures ended { Ended (over_sink E.tells E.state err.old err.new) result }
{
    if !spoken(&status) {
        return status;
    }
    if let Some(text) = brief_line(&status) {
        say(err, text.as_bytes());
        return status;
    }
    match error_line(alloc, &status) {
        Ok(text) => {
            say(err, text.as_str().as_bytes());
            status
        }
        Err(_) => out_of_memory(err),
    }
}

/// Ends a run for which there was no memory before the top call could be made: for the words, or for opening what they
/// name. The error line is written, which takes no memory.
pub fn out_of_memory<E: Sink>(err: &mut E) -> Status
    ensures status { result ≡ NoMemory }
    ensures ended { Ended (over_sink E.tells E.state err.old err.new) result }
{
    say(err, memory_line().as_bytes());
    Status::NoMemory
}

fn spoken(status: &Status) -> bool
    ensures { result ≡ is_spoken status.now }
{
    match status {
        Status::Done => false,
        Status::WriteFault => false,
        _ => true,
    }
}

// The error lines that need no memory.
fn brief_line(status: &Status) -> Option<&'static str>
    ensures line { IfSome result (λ text. text.now ≡ error_line status.now) }
    ensures others { IfNone result (is_brief status.now ≡ false) }
{
    match status {
        Status::ReadFault => Some("carte: a read failed\n"),
        Status::DiskFault => Some("carte: the state's device failed\n"),
        Status::NoMemory => Some(memory_line()),
        _ => None,
    }
}

fn say<E: Sink>(err: &mut E, bytes: &[u8])
    ensures { Says (over_sink E.tells E.state err.old err.new) bytes.now }
{
    match write_all(err, bytes) {
        Ok(()) => {
            let _ = err.finish();
        }
        Err(_) => {}
    }
}
