// One request over a book and the state.
ghost use Rattle.std.specs.Prelude.{◌≡◌, false};
ghost use Rattle.carte_book.specs.Book.{book_view};
ghost use Rattle.carte_shell.specs.Answers.{NamesInput};
ghost use Rattle.carte_shell.specs.Last.{Leads};
ghost use Rattle.carte_shell.specs.Replies.{said};
ghost use Rattle.carte_shell.specs.Scenes.{scene};
ghost use Rattle.carte_top.specs.Around.{over_source, over_disk, over_sink};
ghost use Rattle.carte_top.specs.Running.{Builds, Cleans, Requests, RequestsOver, Shows, Tells};

use crate::book::load_book;
use crate::chosen::choices_of;
use crate::open::open;
use crate::say::print;
use crate::session::ended;
use carte_book::Book;
use carte_io::{Disk, Sink, Source};
use carte_report::Status;
use carte_session::SessionEnd;
use carte_shell::{Choices, Reply, Shell};
use carte_value::Seeded;
use carte_wave::Gate;
use carte_words::{Line, Words};
use std::alloc::Global;
use std::marker::Sync;
use std::thread::Threads;

/// Builds the targets of the words.
pub(crate) fn build<B: Source, D: Disk, O: Sink, G: Gate, T: Threads + Sync>(
    rt: &T,
    alloc: Global,
    asked: Words,
    source: &mut B,
    state: &mut D,
    out: &mut O,
    hasher: Seeded,
    gate: &G,
) -> Status
    ensures { Builds 536870912 asked
        (over_source B.tells B.state source.old source.new)
        (over_disk D.tells D.story D.faults state.old state.new)
        (over_sink O.tells O.state out.old out.new)
        result }
{
    let choices = choices_of(&asked);
    match load_book(alloc, asked.kind, source, hasher) {
        Ok(book) => {
            let line = Line::Build(asked.targets);
            one(rt, alloc, choices, book, line, "", state, out, gate)
        }
        Err(status) => status,
    }
}

/// A line for each target of the words, of a build that lets rules wait for what they need. Nothing is written to the state.
pub(crate) fn explain<B: Source, D: Disk, O: Sink, G: Gate, T: Threads + Sync>(
    rt: &T,
    alloc: Global,
    asked: Words,
    source: &mut B,
    state: &mut D,
    out: &mut O,
    hasher: Seeded,
    gate: &G,
) -> Status
    ensures { Tells 536870912 asked
        (over_source B.tells B.state source.old source.new)
        (over_disk D.tells D.story D.faults state.old state.new)
        (over_sink O.tells O.state out.old out.new)
        result }
{
    let choices = choices_of(&asked);
    match load_book(alloc, asked.kind, source, hasher) {
        Ok(book) => {
            let line = Line::Explain(asked.targets);
            one(rt, alloc, choices, book, line, "", state, out, gate)
        }
        Err(status) => status,
    }
}

/// Clears the state, and says so. No book is read: an empty one stands in its place.
pub(crate) fn clean<D: Disk, O: Sink, G: Gate, T: Threads + Sync>(
    rt: &T,
    alloc: Global,
    asked: Words,
    state: &mut D,
    out: &mut O,
    hasher: Seeded,
    gate: &G,
) -> Status
    ensures { Cleans 536870912
        (over_disk D.tells D.story D.faults state.old state.new)
        (over_sink O.tells O.state out.old out.new)
        result }
{
    let book = Book::new(alloc, asked.kind, hasher);
    one(
        rt,
        alloc,
        choices_of(&asked),
        book,
        Line::Clean,
        "",
        state,
        out,
        gate,
    )
}

/// Opens a shell over the book and the state, and has it carry out the request. A text that is printed stands behind what is
/// in front.
pub(crate) fn one<D: Disk, O: Sink, G: Gate, T: Threads + Sync>(
    rt: &T,
    alloc: Global,
    choices: Choices,
    book: Book,
    line: Line,
    front: &str,
    state: &mut D,
    out: &mut O,
    gate: &G,
) -> Status
    requires { NamesInput (book_view book).kind line }
    ensures { RequestsOver 536870912 choices (book_view book) line front.now
        (over_disk D.tells D.story D.faults state.old state.new)
        (over_sink O.tells O.state out.old out.new)
        result }
{
    match open(rt, alloc, choices, book, state, gate) {
        Ok(shell) => request(rt, alloc, shell, line, front, state, out, gate),
        Err(status) => status,
    }
}

fn request<D: Disk, O: Sink, G: Gate, T: Threads + Sync>(
    rt: &T,
    alloc: Global,
    shell: Shell,
    line: Line,
    front: &str,
    state: &mut D,
    out: &mut O,
    gate: &G,
) -> Status
    requires whole { shell.engine.journal.broken ≡ false }
    requires named { NamesInput (book_view shell.book).kind line }
    ensures { Leads (D.story state.new) (D.faults state.new) (λ m. Requests D.tells (scene D.story D.faults (shell, state.old)) line m front.now
        (over_sink O.tells O.state out.old out.new)
        result) }
{
    match shell.obey_last(rt, alloc, state, line, gate) {
        Ok(reply) => show(front, reply, out),
        Err(end) => ended(SessionEnd::Machine(end)),
    }
}

// The text of a refusal is a session's. A command ends with the reason as its status, whose error line tells it.
fn show<O: Sink>(front: &str, reply: Reply, out: &mut O) -> Status
    ensures { Shows front.now (said reply) (over_sink O.tells O.state out.old out.new) result }
{
    let Reply { text, refused, .. } = reply;
    match refused {
        Some(reason) => Status::BuildRefused(reason),
        None => print(out, front.as_bytes(), text.as_str().as_bytes()),
    }
}
