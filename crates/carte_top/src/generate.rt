// A build of a generated book.
ghost use Rattle.std.specs.Prelude.{◌≡◌, ◌≤◌, [], ◌∷◌, string_bytes, IfOk};
ghost use Rattle.carte_book.specs.Book.{book_view};
ghost use Rattle.carte_generate.specs.Generated.{IsGenerated, inputs_of, target_of};
ghost use Rattle.carte_report.specs.Reply.{keys_line};
ghost use Rattle.carte_words.specs.declared.line.Line.TheVariants.{Build as build_line};
ghost use Rattle.carte_top.specs.Around.{over_disk, over_sink};
ghost use Rattle.carte_top.specs.Running.{Generates, RequestsOver};

use crate::chosen::choices_of;
use crate::one::one;
use carte_book::Book;
use carte_generate::{generated, inputs_of, last_key};
use carte_io::{Disk, Sink};
use carte_report::{Status, keys_line};
use carte_shell::Choices;
use carte_value::{Names, NoMemory, Seeded};
use carte_wave::Gate;
use carte_words::{Line, Words};
use std::alloc::Global;
use std::marker::Sync;
use std::thread::Threads;

/// A generated book, the target of its build, and the line that stands in front of the reply.
#[derive(Drop)]
struct Prepared {
    book: Book,
    targets: Names,
    front: String,
}

/// Builds the last key of the generated book of the words' seed and count. No book is read.
pub(crate) fn generate<D: Disk, O: Sink, G: Gate, T: Threads + Sync>(
    rt: &T,
    alloc: Global,
    asked: &Words,
    state: &mut D,
    out: &mut O,
    hasher: Seeded,
    gate: &G,
) -> Status
    requires least { 2 ≤ asked.now.count }
    requires most { asked.now.count ≤ 262144 }
    ensures { Generates 536870912 asked.now
        (over_disk D.tells D.story D.faults state.old state.new)
        (over_sink O.tells O.state out.old out.new)
        result }
{
    match prepare(alloc, asked.seed, asked.count, hasher) {
        Ok(prepared) => build(rt, alloc, choices_of(asked), prepared, state, out, gate),
        Err(NoMemory) => Status::NoMemory,
    }
}

fn build<D: Disk, O: Sink, G: Gate, T: Threads + Sync>(
    rt: &T,
    alloc: Global,
    choices: Choices,
    prepared: Prepared,
    state: &mut D,
    out: &mut O,
    gate: &G,
) -> Status
    ensures { RequestsOver 536870912 choices (book_view prepared.book) (build_line prepared.targets) (string_bytes prepared.front)
        (over_disk D.tells D.story D.faults state.old state.new)
        (over_sink O.tells O.state out.old out.new)
        result }
{
    let Prepared {
        book,
        targets,
        front,
    } = prepared;
    let line = Line::Build(targets);
    one(
        rt,
        alloc,
        choices,
        book,
        line,
        front.as_str(),
        state,
        out,
        gate,
    )
}

fn prepare(alloc: Global, seed: u64, count: u64, hasher: Seeded) -> Result<Prepared, NoMemory>
    requires least { 2 ≤ count }
    requires most { count ≤ 262144 }
    ensures book { IfOk result (λ p. IsGenerated seed count (book_view p.book)) }
    ensures targets { IfOk result (λ p. p.targets ≡ target_of count ∷ []) }
    ensures front { IfOk result (λ p. string_bytes p.front ≡ keys_line count (inputs_of count)) }
{
    let book = generated(alloc, seed, count, hasher)?;
    let mut targets = Names::new(alloc);
    targets.push(last_key(alloc, count)?)?;
    let front = keys_line(alloc, count, inputs_of(count))?;
    Ok(Prepared {
        book,
        targets,
        front,
    })
}
