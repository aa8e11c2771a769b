// What is written: the reply, and the error line.
ghost use Rattle.std.specs.Prelude.{◌≡◌, ◌++◌, false, true, IfOk, IfSome, IfNone, OnOk, string_bytes};
ghost use Rattle.std.specs.Fmt.{decimal};
ghost use Rattle.carte_trim.specs.Around.{over_sink, Says};
ghost use Rattle.carte_trim.specs.Outcome.{Ended, Prints, Reports};
ghost use Rattle.carte_trim.specs.Texts.{error_line, is_done, is_long, reply, status_text};

use crate::Status;
use carte_io::{Sink, write_all};
use carte_value::NoMemory;
use std::alloc::Global;

/// The reply of a run that trimmed.
pub(crate) fn reply(
    alloc: Global,
    traces: u64,
    of_traces: u64,
    bytes: u64,
    of_bytes: u64,
) -> Result<String, NoMemory>
    ensures { IfOk result (λ text. string_bytes text ≡ reply traces of_traces bytes of_bytes) }
{
    let mut text = String::from_str(alloc, "kept ")?;
    push_number(alloc, &mut text, traces, " of ")?;
    push_number(alloc, &mut text, of_traces, " traces, ")?;
    push_number(alloc, &mut text, bytes, " of ")?;
    push_number(alloc, &mut text, of_bytes, " bytes\n")?;
    Ok(text)
}

fn push_number(alloc: Global, text: &mut String, number: u64, behind: &str) -> Result<(), NoMemory>
    ensures { OnOk result (string_bytes text.new ≡ string_bytes text.old ++ (decimal number ++ behind.now)) }
{
    let number = number.to_string(alloc)?;
    text.push_str(number.as_str())?;
    text.push_str(behind)?;
    Ok(())
}

/// Writes the whole reply and hands it on.
pub(crate) fn print<O: Sink>(out: &mut O, bytes: &[u8]) -> Status
    ensures { Prints bytes.now (over_sink O.tells O.state out.old out.new) result }
{
    match write_all(out, bytes) {
        Ok(()) => match out.finish() {
            Ok(()) => Status::Done,
            Err(_) => Status::WriteFault,
        },
        Err(_) => Status::WriteFault,
    }
}

/// Writes the error line of a status, where it has one. Where there is no memory for the line, that is the status.
pub(crate) fn report<E: Sink>(alloc: Global, err: &mut E, status: Status) -> Status
    ensures reports { Reports status result }
    ensures ended { Ended (over_sink E.tells E.state err.old err.new) result }
{
    if is_done(&status) {
        return status;
    }
    if let Some(text) = brief_line(&status) {
        say(err, text.as_bytes());
        return status;
    }
    match long_line(alloc, &status) {
        Ok(text) => {
            say(err, text.as_str().as_bytes());
            status
        }
        Err(_) => out_of_memory(err),
    }
}

/// Ends a run for which there was no memory before the top call could be made. The error line is written, which takes no
/// memory.
pub fn out_of_memory<E: Sink>(err: &mut E) -> Status
    ensures status { result ≡ Status.NoMemory }
    ensures ended { Ended (over_sink E.tells E.state err.old err.new) result }
{
    say(err, "carte_trim: out of memory\n".as_bytes());
    Status::NoMemory
}

// The error lines that need no memory.
fn brief_line(status: &Status) -> Option<&'static str>
    ensures line { IfSome result (λ text. text.now ≡ error_line status.now) }
    ensures others { IfNone result (is_done status.now ≡ false → is_long status.now ≡ true) }
{
    match status {
        Status::Usage => Some(
            "carte_trim: usage: carte_trim STATE NEW COUNT, with a count from 1 to 1000000\n",
        ),
        Status::WriteFault => Some("carte_trim: a write of the reply failed\n"),
        Status::StateFault => Some("carte_trim: the state's device failed\n"),
        Status::NoMemory => Some("carte_trim: out of memory\n"),
        Status::NotNew => Some("carte_trim: NEW isn't new\n"),
        Status::NewFault => Some("carte_trim: NEW's device failed\n"),
        Status::OldState => Some("carte_trim: the state is of version 1: build with it first\n"),
        Status::Done | Status::BadState(_) | Status::Full(_, _) => None,
    }
}

fn is_done(status: &Status) -> bool
    ensures { result ≡ is_done status.now }
{
    match status {
        Status::Done => true,
        _ => false,
    }
}

// And those that do.
fn long_line(alloc: Global, status: &Status) -> Result<String, NoMemory>
    requires { is_long status.now ≡ true }
    ensures { IfOk result (λ text. string_bytes text ≡ error_line status.now) }
{
    match status {
        Status::BadState(offset) => bad_state_line(alloc, *offset),
        Status::Full(needed, limit) => full_line(alloc, *needed, *limit),
        _ => Ok(String::new(alloc)),
    }
}

fn bad_state_line(alloc: Global, offset: u64) -> Result<String, NoMemory>
    ensures { IfOk result (λ text. string_bytes text ≡ error_line (Status.BadState offset)) }
{
    let mut text = String::from_str(alloc, "carte_trim: bad state at byte ")?;
    push_number(alloc, &mut text, offset, "\n")?;
    Ok(text)
}

fn full_line(alloc: Global, needed: u64, limit: u64) -> Result<String, NoMemory>
    ensures { IfOk result (λ text. string_bytes text ≡ error_line (Status.Full needed limit)) }
{
    let mut text = String::from_str(alloc, "carte_trim: ")?;
    let full = full_text(alloc, needed, limit)?;
    text.push_str(full.as_str())?;
    text.push_str("\n")?;
    Ok(text)
}

fn full_text(alloc: Global, needed: u64, limit: u64) -> Result<String, NoMemory>
    ensures { IfOk result (λ text. string_bytes text ≡ status_text (Status.Full needed limit)) }
{
    let mut text = String::from_str(alloc, "state full: ")?;
    push_number(alloc, &mut text, needed, " bytes needed, limit ")?;
    let limit = limit.to_string(alloc)?;
    text.push_str(limit.as_str())?;
    Ok(text)
}

fn say<E: Sink>(err: &mut E, bytes: &[u8])
    ensures { Says (over_sink E.tells E.state err.old err.new) bytes.now }
{
    match write_all(err, bytes) {
        Ok(()) => {
            let _ = err.finish();
        }
        Err(_) => {}
    }
}
