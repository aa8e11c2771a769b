ghost use Rattle.std.specs.Prelude.{◌≡◌};
ghost use Rattle.carte_words.specs.Words.{IsCounted};
ghost use Rattle.carte_top.specs.Around.{over_source, over_disk, over_sink};
ghost use Rattle.carte_top.specs.Running.{usage_of, IsRun, Runs};
ghost use Rattle.carte_top.specs.Whole.{IsOutcome};

use crate::generate::generate;
use crate::one::{build, clean, explain};
use crate::say::report;
use crate::session::session;
use carte_io::{Disk, Sink, Source};
use carte_report::Status;
use carte_value::Seeded;
use carte_wave::Gate;
use carte_words::{Command, Word, Words, WordsFault, read_words};
use std::alloc::Global;
use std::marker::Sync;
use std::thread::Threads;

/// All that the program does: reads the command in the words; builds the targets over the book and what the state's disk
/// keeps, or tells why they would run, or carries out the lines of the script, or clears the state, or builds the last key
/// of a generated book; commits what was made; writes the reply to `out`, and where something went wrong one line to `err`.
///
/// The book is read to its end, where it has at most 16,777,216 bytes, and for `clean` and `generate` not at all. The state
/// is limited to 536,870,912 bytes. No call of the disk is made before the words and the book were read. The script is read
/// by a session alone, behind the book and the state, up to 67,108,864 bytes.
///
/// The maps of names are made with `hasher`, on which nothing that is answered depends. Nor does anything depend on `rt`, of
/// which several workers have their threads, who read a state or drive a wave, and on `gate`, which each passes before its
/// part.
pub fn carte<B: Source, S: Source, D: Disk, O: Sink, E: Sink, G: Gate, T: Threads + Sync>(
    rt: &T,
    alloc: Global,
    words: &[Word],
    book: &mut B,
    script: &mut S,
    state: &mut D,
    out: &mut O,
    err: &mut E,
    hasher: Seeded,
    gate: &G,
) -> Status
    ensures { IsOutcome 536870912
        (record {
          words = words.now;
          book = over_source B.tells B.state book.old book.new;
          script = over_source S.tells S.state script.old script.new;
          state = over_disk D.tells D.story D.faults state.old state.new;
          out = over_sink O.tells O.state out.old out.new;
          err = over_sink E.tells E.state err.old err.new;
        })
        result }
{
    let status = run(rt, alloc, words, book, script, state, out, hasher, gate);
    report(alloc, err, status)
}

fn run<B: Source, S: Source, D: Disk, O: Sink, G: Gate, T: Threads + Sync>(
    rt: &T,
    alloc: Global,
    words: &[Word],
    book: &mut B,
    script: &mut S,
    state: &mut D,
    out: &mut O,
    hasher: Seeded,
    gate: &G,
) -> Status
    ensures { IsRun 536870912 words.now
        (over_source B.tells B.state book.old book.new)
        (over_source S.tells S.state script.old script.new)
        (over_disk D.tells D.story D.faults state.old state.new)
        (over_sink O.tells O.state out.old out.new)
        result }
{
    match read_words(alloc, words) {
        Ok(asked) => command(rt, alloc, asked, book, script, state, out, hasher, gate),
        Err(fault) => usage(fault),
    }
}

fn usage(fault: WordsFault) -> Status
    ensures { result ≡ usage_of fault }
{
    match fault {
        WordsFault::NoMemory => Status::NoMemory,
        fault => Status::Usage(fault),
    }
}

fn command<B: Source, S: Source, D: Disk, O: Sink, G: Gate, T: Threads + Sync>(
    rt: &T,
    alloc: Global,
    asked: Words,
    book: &mut B,
    script: &mut S,
    state: &mut D,
    out: &mut O,
    hasher: Seeded,
    gate: &G,
) -> Status
    requires { IsCounted asked }
    ensures { Runs 536870912 asked
        (over_source B.tells B.state book.old book.new)
        (over_source S.tells S.state script.old script.new)
        (over_disk D.tells D.story D.faults state.old state.new)
        (over_sink O.tells O.state out.old out.new)
        result }
{
    match asked.command {
        Command::Build => build(rt, alloc, asked, book, state, out, hasher, gate),
        Command::Session => session(rt, alloc, &asked, book, script, state, out, hasher, gate),
        Command::Explain => explain(rt, alloc, asked, book, state, out, hasher, gate),
        Command::Clean => clean(rt, alloc, asked, state, out, hasher, gate),
        Command::Generate => generate(rt, alloc, &asked, state, out, hasher, gate),
    }
}
