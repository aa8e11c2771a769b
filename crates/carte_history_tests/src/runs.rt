//! What the tables share: words, books, and runs of the top call over memory.

ghost use Rattle.std.specs.Prelude.{◌≤◌};

use carte_history::{Run, Shown, Stop};
use carte_io::{Disk, MemDisk, MemSink, MemSource, NoGate, Sink, Source};
use carte_top::carte;
use carte_value::Seeded;
use carte_words::Word;
use std::alloc::Global;
use std::marker::Sync;
use std::str;
use std::test::Fail;
use std::thread::Threads;

/// A1 is 10 and A2 is 20; B1 is their sum, and B2 twice that.
pub(crate) const PLAIN: &str = "10,=A1+A2\n20,=B1*2\n";

/// The same with 11 for A1.
pub(crate) const EDITED: &str = "11,=A1+A2\n20,=B1*2\n";

pub(crate) const BUILD: &str = "build p.csv s B2";

pub(crate) fn words_of(alloc: Global, text: &str) -> Result<Vec<Word>, Fail> {
    let mut words = Vec::new(alloc);
    for word in text.split(' ') {
        words.push(Word::of(alloc, word)?)?;
    }
    Ok(words)
}

/// The runs of a history, without scripts.
pub(crate) fn runs_of(alloc: Global, rows: &[(&str, &str, Stop)]) -> Result<Vec<Run>, Fail> {
    let mut runs = Vec::new(alloc);
    for (words, book, stop) in rows {
        runs.push(run_of(alloc, words, book, *stop)?)?;
    }
    Ok(runs)
}

fn run_of(alloc: Global, words: &str, book: &str, stop: Stop) -> Result<Run, Fail> {
    Ok(Run {
        words: words_of(alloc, words)?,
        book: book.as_bytes().to_vec(alloc)?,
        script: Vec::new(alloc),
        stop,
    })
}

/// The exit status, and what stands on standard output.
pub(crate) fn told(alloc: Global, shown: &Shown) -> Result<String, Fail> {
    let out = str::from_utf8(&shown.out)?;
    Ok(format!(in alloc; "{} {out}", shown.status.code())?)
}

/// The exit status of a run of the top call over such devices; standard output and standard error come last. It has one way
/// out, since along each is carried what the call says of all of them.
fn code_of<B: Source, S: Source, D: Disk, O: Sink, E: Sink, T: Threads + Sync>(
    rt: &T,
    alloc: Global,
    words: &[Word],
    book: &mut B,
    script: &mut S,
    state: &mut D,
    out: &mut O,
    err: &mut E,
) -> u8 {
    let hasher = Seeded::of(7);
    let status = carte(
        rt, alloc, words, book, script, state, out, err, hasher, &NoGate,
    );
    status.code()
}

/// The exit status, and what stands on both outputs, of a run that reads so many bytes a call and writes as many.
pub(crate) fn by_pieces<T: Threads + Sync>(
    rt: &T,
    alloc: Global,
    words: &str,
    book: &[u8],
    script: &[u8],
    state: &mut MemDisk,
    most: usize,
) -> Result<String, Fail> {
    let most = most.max(1);
    let mut book = MemSource::slow(alloc, book, most, &[])?;
    let mut script = MemSource::slow(alloc, script, most, &[])?;
    let mut out = MemSink::new(alloc, most, &[])?;
    let (code, err) = answer(
        rt,
        alloc,
        words,
        &mut book,
        &mut script,
        state,
        &mut out,
        most,
    )?;
    printed(alloc, code, out.bytes(), err.as_slice())
}

/// The exit status, and the bytes on standard error, which takes so many a call.
pub(crate) fn answer<T: Threads + Sync>(
    rt: &T,
    alloc: Global,
    words: &str,
    book: &mut MemSource,
    script: &mut MemSource,
    state: &mut MemDisk,
    out: &mut MemSink,
    most: usize,
) -> Result<(u8, Vec<u8>), Fail>
    requires { 1 ≤ most }
{
    let words = words_of(alloc, words)?;
    let mut err = MemSink::new(alloc, most, &[])?;
    let code = code_of(rt, alloc, &words, book, script, state, out, &mut err);
    let said = err.bytes().to_vec(alloc)?;
    Ok((code, said))
}

fn printed(alloc: Global, code: u8, out: &[u8], err: &[u8]) -> Result<String, Fail> {
    let out = str::from_utf8(out)?;
    let err = str::from_utf8(err)?;
    Ok(format!(in alloc; "{code} {out}{err}")?)
}
