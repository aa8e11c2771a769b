//! Runs of the top call over memory, as texts.

use carte_io::{Disk, MemDisk, MemSink, MemSource, Sink, Source};
use carte_top::{Word, carte};
use carte_value::Seeded;
use carte_wave::NoGate;
use std::alloc::Global;
use std::marker::Sync;
use std::str;
use std::test::Fail;
use std::thread::Threads;

fn words_of(alloc: Global, text: &str) -> Result<Vec<Word>, Fail> {
    let mut words = Vec::new(alloc);
    for word in text.split(' ') {
        words.push(Word::of(alloc, word)?)?;
    }
    Ok(words)
}

// It has one way out, since along each is carried what the call says of all devices.
fn code_of<B: Source, S: Source, D: Disk, O: Sink, E: Sink, T: Threads + Sync>(
    rt: &T,
    alloc: Global,
    words: &[Word],
    book: &mut B,
    script: &mut S,
    state: &mut D,
    out: &mut O,
    err: &mut E,
) -> u8 {
    let status = carte(
        rt,
        alloc,
        words,
        book,
        script,
        state,
        out,
        err,
        Seeded::of(7),
        &NoGate,
    );
    status.code()
}

/// The exit status, a line feed, and what stands on both outputs. The first read of a script fails.
pub(crate) fn shown<T: Threads + Sync>(
    rt: &T,
    alloc: Global,
    words: &str,
    book: &str,
    state: &mut MemDisk,
) -> Result<String, Fail> {
    let mut script = MemSource::of(alloc, b"clean", &[1])?;
    with_script(rt, alloc, words, book, &mut script, state)
}

/// The same of a session.
pub(crate) fn said<T: Threads + Sync>(
    rt: &T,
    alloc: Global,
    words: &str,
    book: &str,
    script: &str,
    state: &mut MemDisk,
) -> Result<String, Fail> {
    let mut script = MemSource::of(alloc, script.as_bytes(), &[])?;
    with_script(rt, alloc, words, book, &mut script, state)
}

fn with_script<T: Threads + Sync>(
    rt: &T,
    alloc: Global,
    words: &str,
    book: &str,
    script: &mut MemSource,
    state: &mut MemDisk,
) -> Result<String, Fail> {
    let mut book = MemSource::of(alloc, book.as_bytes(), &[])?;
    over(rt, alloc, words, &mut book, script, state, 4096, 0, 0)
}

/// The same over these devices. The outputs take so many bytes a call, and fail at such a call each, where 0 is none.
pub(crate) fn over<T: Threads + Sync>(
    rt: &T,
    alloc: Global,
    words: &str,
    book: &mut MemSource,
    script: &mut MemSource,
    state: &mut MemDisk,
    most: usize,
    write: u64,
    line: u64,
) -> Result<String, Fail> {
    let most = most.max(1);
    let words = words_of(alloc, words)?;
    let mut out = MemSink::new(alloc, most, &[write])?;
    let mut err = MemSink::new(alloc, most, &[line])?;
    let code = code_of(rt, alloc, &words, book, script, state, &mut out, &mut err);
    printed(alloc, code, out.bytes(), err.bytes())
}

fn printed(alloc: Global, code: u8, out: &[u8], err: &[u8]) -> Result<String, Fail> {
    let out = str::from_utf8(out)?;
    let err = str::from_utf8(err)?;
    Ok(format!(in alloc; "{code}\n{out}{err}")?)
}

/// The same over a state of these bytes.
pub(crate) fn shown_over<T: Threads + Sync>(
    rt: &T,
    alloc: Global,
    words: &str,
    book: &str,
    state: &[u8],
) -> Result<String, Fail> {
    let mut state = Box::new(alloc, MemDisk::of(alloc, state, &[])?)?;
    shown(rt, alloc, words, book, &mut state)
}
