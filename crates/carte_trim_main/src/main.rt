//! The program that trims: makes the real files and streams, and leaves all else to the top call of `carte_trim`.
//!
//! The state is opened to be read alone, so no call could write to it. What can't be opened as it has to be is handed in as
//! a file whose every call fails. Both files are locked and synced as `carte` does with a state.
//!
//! Turned down: a command of `carte`, whose theorem is of one state, and whose words have a book.
#![tactic(auto)]

mod descriptors;
mod files;
mod start;

ghost use Rattle.std.specs.Prelude.{◌≡◌};
ghost use Rattle.std.specs.Process.{exit_status};
ghost use Rattle.carte_trim.specs.Texts.{code_of};
ghost use Rattle.carte_trim.specs.declared.status.Status.TheVariants as status;
ghost use Rattle.carte_trim.specs.Around.{over_disk};
ghost use Rattle.carte_trim_main.specs.Ends.{Ends, OverBoth, OverFiles, OverState};

use carte_io::{Absent, Disk, FileDisk, WriteSink};
use carte_trim::{Status, out_of_memory, trim};
use carte_value::{NoMemory, Seeded};
use carte_words::Word;
use files::Files;
use start::{seed, words};
use std::fs::File;
use std::process::ExitCode;

fn main(rt: HostRuntime) -> ExitCode {
    let status = match words(&rt) {
        Ok(words) => run(&rt, words.as_slice()),
        Err(NoMemory) => give_up(&rt),
    };
    exit_code(&status)
}

fn exit_code(status: &Status) -> ExitCode
    ensures { exit_status result ≡ code_of status.now }
{
    ExitCode::from(status.code())
}

// There was no memory for what the top call takes.
fn give_up(rt: &HostRuntime) -> Status
    ensures { result ≡ status.NoMemory }
{
    out_of_memory(&mut WriteSink::of(rt.stderr()))
}

fn run(rt: &HostRuntime, words: &[Word]) -> Status
    ensures { Ends words.now result }
{
    match files::open(rt, words) {
        Ok(files) => over_files(rt, words, files),
        Err(NoMemory) => give_up(rt),
    }
}

fn over_files(rt: &HostRuntime, words: &[Word], files: Files) -> Status
    ensures { OverFiles words.now result }
{
    match files.state {
        Some(file) => over_state(rt, words, &mut FileDisk::of(file), files.new),
        None => over_state(rt, words, &mut Absent::of(), files.new),
    }
}

fn over_state<S: Disk>(rt: &HostRuntime, words: &[Word], state: &mut S, new: Option<File>) -> Status
    ensures { OverState words.now (over_disk S.tells S.story S.faults state.old state.new) result }
{
    match new {
        Some(file) => over_both(rt, words, state, &mut FileDisk::of(file)),
        None => over_both(rt, words, state, &mut Absent::of()),
    }
}

fn over_both<S: Disk, N: Disk>(
    rt: &HostRuntime,
    words: &[Word],
    state: &mut S,
    new: &mut N,
) -> Status
    ensures { OverBoth words.now (over_disk S.tells S.story S.faults state.old state.new) (over_disk N.tells N.story N.faults new.old new.new) result }
{
    let mut out = WriteSink::of(rt.stdout());
    let mut err = WriteSink::of(rt.stderr());
    trim(
        rt.alloc(),
        words,
        state,
        new,
        &mut out,
        &mut err,
        Seeded::of(seed(rt)),
    )
}
