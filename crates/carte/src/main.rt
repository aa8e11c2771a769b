//! The program: makes the real files and streams, and leaves all else to the top call.
//!
//! What the words name is opened in `files`, and nothing is where they are no command. What can't be opened as it has to
//! be is handed in as a file whose every call fails, so opening has no status of its own. No proof can say what a file
//! holds, or that it was the right one: what is proved is that the program's status is that of the top call over these
//! words (`Ends`), and what `files` says of the ways in which files are opened. The rest is shown by `tests/program.py`.
//!
//! Turned down: buffers in front of the files, which would keep a fault from the call that it belongs to; and reading the
//! words in one place alone, which would leave the top call, whose theorem begins with the words, without them.
#![tactic(auto)]

mod descriptors;
mod files;

ghost use Rattle.std.specs.Prelude.{◌≡◌};
ghost use Rattle.std.specs.Process.{exit_status};
ghost use Rattle.carte_report.specs.Status.{code_of};
ghost use Rattle.carte_report.specs.declared.status.Status.TheVariants as status;
ghost use Rattle.carte_top.specs.Around.{over_source, over_disk};
ghost use Rattle.carte.specs.Ends.{Ends, OverFiles, OverBook, OverBoth};

use carte_io::{Absent, Disk, FileDisk, ReadSource, Source, WriteSink};
use carte_top::{Status, Word, carte, out_of_memory};
use carte_value::{NoMemory, Seeded};
use carte_wave::NoGate;
use files::Files;
use std::env;
use std::fs::File;
use std::hash::{BuildHasher, RandomState};
use std::io::ErrorKind;
use std::marker::Sync;
use std::process::ExitCode;
use std::thread::Threads;

fn main(rt: HostRuntime) -> ExitCode {
    let status = match words(&rt) {
        Ok(words) => run(&rt, &rt, words.as_slice()),
        Err(NoMemory) => give_up(&rt),
    };
    exit_code(&status)
}

fn exit_code(status: &Status) -> ExitCode
    ensures { exit_status result ≡ code_of status.now }
{
    ExitCode::from(status.code())
}

// The words behind the program's name. Where one isn't UTF-8 there are none, which is no command.
fn words(rt: &HostRuntime) -> Result<Vec<Word>, NoMemory> {
    let mut words = Vec::new(rt.alloc());
    match env::args(rt) {
        Ok(all) => {
            for text in all.skip(1) {
                words.push(Word::of(rt.alloc(), text.as_str())?)?;
            }
            Ok(words)
        }
        Err(error) if error.kind() == ErrorKind::InvalidData => Ok(words),
        Err(_) => Err(NoMemory),
    }
}

// There was no memory for what the top call takes.
fn give_up(rt: &HostRuntime) -> Status
    ensures { result ≡ status.NoMemory }
{
    out_of_memory(&mut WriteSink::of(rt.stderr()))
}

// Threads are the runtime's, too: only `main` may hand it on as what starts them.
fn run<T: Threads + Sync>(rt: &HostRuntime, threads: &T, words: &[Word]) -> Status
    ensures { Ends words.now result }
{
    match files::open(rt, words) {
        Ok(files) => over_files(rt, threads, words, files),
        Err(NoMemory) => give_up(rt),
    }
}

// What the hashes of this run begin with, so that no names can be chosen beforehand that collide. Where the system gives
// nothing random they begin as always: the answers are the same.
fn seed(rt: &HostRuntime) -> u64 {
    match RandomState::new(rt) {
        Ok(state) => state.hash_one(0u64),
        Err(_) => 0,
    }
}

fn over_files<T: Threads + Sync>(
    rt: &HostRuntime,
    threads: &T,
    words: &[Word],
    files: Files,
) -> Status
    ensures { OverFiles words.now result }
{
    match files.book {
        Some(file) => over_book(rt, threads, words, &mut ReadSource::of(file), files.state),
        None => over_book(rt, threads, words, &mut Absent::of(), files.state),
    }
}

fn over_book<B: Source, T: Threads + Sync>(
    rt: &HostRuntime,
    threads: &T,
    words: &[Word],
    book: &mut B,
    state: Option<File>,
) -> Status
    ensures { OverBook words.now (over_source B.tells B.state book.old book.new) result }
{
    match state {
        Some(file) => over_both(rt, threads, words, book, &mut FileDisk::of(file)),
        None => over_both(rt, threads, words, book, &mut Absent::of()),
    }
}

fn over_both<B: Source, D: Disk, T: Threads + Sync>(
    rt: &HostRuntime,
    threads: &T,
    words: &[Word],
    book: &mut B,
    state: &mut D,
) -> Status
    ensures { OverBoth words.now (over_source B.tells B.state book.old book.new) (over_disk D.tells D.story D.faults state.old state.new) result }
{
    let mut out = WriteSink::of(rt.stdout());
    let mut err = WriteSink::of(rt.stderr());
    let mut script = ReadSource::of(rt.stdin());
    carte(
        threads,
        rt.alloc(),
        words,
        book,
        &mut script,
        state,
        &mut out,
        &mut err,
        Seeded::of(seed(rt)),
        &NoGate,
    )
}
