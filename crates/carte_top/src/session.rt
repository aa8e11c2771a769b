// The lines of a script, carried out one after another.
ghost use Rattle.std.specs.Prelude.{◌≡◌, false, Err};
ghost use Rattle.carte_book.specs.Book.{book_view};
ghost use Rattle.carte_shell.specs.Scenes.{scene};
ghost use Rattle.carte_top.specs.Around.{over_source, over_disk, over_sink};
ghost use Rattle.carte_top.specs.Outcome.{status_of};
ghost use Rattle.carte_top.specs.Running.{Serves, Sits, SitsOver};

use crate::book::load_book;
use crate::chosen::choices_of;
use crate::open::open;
use carte_book::Book;
use carte_io::{Disk, Sink, Source};
use carte_report::Status;
use carte_session::{SessionEnd, StepEnd, run_session};
use carte_shell::Shell;
use carte_value::Seeded;
use carte_wave::Gate;
use carte_words::Words;
use std::alloc::Global;
use std::marker::Sync;
use std::thread::Threads;

const MOST_SCRIPT: usize = 67108864;

/// Carries out the lines of the script over the book and the state of the words. Edits of the book stay in memory.
/// The gate is passed where the state is read; the builds of a session ask for no more parts than are worth it.
pub(crate) fn session<B: Source, S: Source, D: Disk, O: Sink, T: Threads + Sync, G: Gate>(
    rt: &T,
    alloc: Global,
    asked: &Words,
    source: &mut B,
    script: &mut S,
    state: &mut D,
    out: &mut O,
    hasher: Seeded,
    gate: &G,
) -> Status
    ensures { Sits 536870912 asked.now
        (over_source B.tells B.state source.old source.new)
        (over_source S.tells S.state script.old script.new)
        (over_disk D.tells D.story D.faults state.old state.new)
        (over_sink O.tells O.state out.old out.new)
        result }
{
    match load_book(alloc, asked.kind, source, hasher) {
        Ok(book) => session_over(rt, alloc, asked, book, script, state, out, gate),
        Err(status) => status,
    }
}

fn session_over<S: Source, D: Disk, O: Sink, T: Threads + Sync, G: Gate>(
    rt: &T,
    alloc: Global,
    asked: &Words,
    book: Book,
    script: &mut S,
    state: &mut D,
    out: &mut O,
    gate: &G,
) -> Status
    ensures { SitsOver 536870912 asked.now (book_view book)
        (over_source S.tells S.state script.old script.new)
        (over_disk D.tells D.story D.faults state.old state.new)
        (over_sink O.tells O.state out.old out.new)
        result }
{
    match open(rt, alloc, choices_of(asked), book, state, gate) {
        Ok(mut shell) => session_with(rt, alloc, &mut shell, script, state, out),
        Err(status) => status,
    }
}

fn session_with<S: Source, D: Disk, O: Sink, T: Threads + Sync>(
    rt: &T,
    alloc: Global,
    shell: &mut Shell,
    script: &mut S,
    state: &mut D,
    out: &mut O,
) -> Status
    requires whole { shell.old.engine.journal.broken ≡ false }
    ensures { Serves (scene D.story D.faults (shell.old, state.old)) (scene D.story D.faults (shell.new, state.new)) D.tells
        (over_source S.tells S.state script.old script.new)
        (over_sink O.tells O.state out.old out.new)
        result }
{
    match run_session(rt, alloc, script, shell, state, out, MOST_SCRIPT) {
        Ok(()) => Status::Done,
        Err(end) => ended(end),
    }
}

/// The status of an end.
pub(crate) fn ended(end: SessionEnd) -> Status
    ensures { result ≡ status_of (Err end) }
{
    match end {
        SessionEnd::ReadFault => Status::ReadFault,
        SessionEnd::WriteFault => Status::WriteFault,
        SessionEnd::TooLong => Status::ScriptTooLong,
        SessionEnd::NoMemory => Status::NoMemory,
        SessionEnd::Machine(StepEnd::DiskFault) => Status::DiskFault,
        SessionEnd::Machine(StepEnd::StateFull(needed, limit)) => Status::StateFull(needed, limit),
        SessionEnd::Machine(StepEnd::NoMemory) => Status::NoMemory,
    }
}
