//! Whole runs, by hand.

mod devices;
mod edits;
mod runs;

use crate::top::runs::{said, shown, shown_over};
use carte_io::{MemDisk, MemSink};
use carte_top::out_of_memory;
use std::alloc::Global;
use std::marker::Sync;
use std::str;
use std::test::Fail;
use std::thread::Threads;

pub(crate) const SUMS: &str =
    "[inputs]\na = 10\nb = 20\n[rules]\nsum = \"a + b\"\ntotal = \"sum + sum\"\n";

/// Two builds of one book over one state, and a word where the second made a writing call.
fn twice<T: Threads + Sync>(rt: &T, alloc: Global, words: &str) -> Result<String, Fail> {
    let mut state = Box::new(alloc, MemDisk::of(alloc, &[], &[])?)?;
    let mut text = shown(rt, alloc, words, SUMS, &mut state)?;
    again(rt, alloc, words, &mut state, &mut text)?;
    Ok(text)
}

fn again<T: Threads + Sync>(
    rt: &T,
    alloc: Global,
    words: &str,
    state: &mut MemDisk,
    text: &mut String,
) -> Result<(), Fail> {
    let passed = state.passed();
    text.push_str(shown(rt, alloc, words, SUMS, state)?.as_str())?;
    if state.passed() != passed {
        text.push_str("written")?;
    }
    Ok(())
}

const ALL: &str =
    "0\ntotal = 60\nran 2, given up 0, reused 0\n0\ntotal = 60\nran 0, given up 0, reused 2\n";

const FIRST: &str =
    "0\ntotal = 60\nran 2, given up 0, reused 0\n0\ntotal = 60\nran 0, given up 0, reused 1\n";

// A rule beneath a held one is passed over where held keys aren't looked into: by marks and by deep traces, where rules
// wait.
const BUILDS: &[(&str, &str)] = &[
    (
        "build b s total --scheduler topological --rebuilder dirty",
        ALL,
    ),
    (
        "build b s total --scheduler topological --rebuilder verifying",
        ALL,
    ),
    (
        "build b s total --scheduler topological --rebuilder constructive",
        ALL,
    ),
    (
        "build b s total --scheduler topological --rebuilder deep",
        ALL,
    ),
    ("build b s total --rebuilder dirty", FIRST),
    ("build b s total", ALL),
    ("build b s total --rebuilder constructive", ALL),
    ("build b s total --rebuilder deep", FIRST),
    ("build b s total --workers 64", ALL),
];

#[test]
fn a_second_build_runs_nothing(rt: HostRuntime) -> Result<(), Fail> {
    for (words, want) in BUILDS {
        let text = twice(&rt, rt.alloc(), words)?;
        assert_eq!(rt; text.as_str(), *want, "{words}");
    }
    Ok(())
}

// Words, a book, a state and what is shown, by hand. Ten bytes are no new file, and must begin with a header.
const RUNS: &[(&str, &str, &[u8], &str)] = &[
    (
        "build b",
        SUMS,
        b"",
        "2\ncarte: usage: the words are no command\n",
    ),
    ("build b s", SUMS, b"", "2\ncarte: usage: no target\n"),
    (
        "clean b s total",
        SUMS,
        b"",
        "2\ncarte: usage: targets not taken\n",
    ),
    (
        "build b s A",
        SUMS,
        b"",
        "2\ncarte: usage: bad target \"A\"\n",
    ),
    (
        "build b s a",
        "a =",
        b"",
        "1\ncarte: book refused: not TOML\n",
    ),
    ("build b s gone", SUMS, b"", "3\ncarte: missing: gone\n"),
    (
        "build b s t",
        "[rules]\nt = \"t + 1\"\n",
        b"",
        "3\ncarte: cycle: t -> t\n",
    ),
    (
        "build b.csv s B1",
        "2,=A1+1\n",
        b"",
        "0\nB1 = 3\nran 1, given up 0, reused 0\n",
    ),
    (
        "build b s B1 --kind sheet",
        "2,=A1+1\n",
        b"",
        "0\nB1 = 3\nran 1, given up 0, reused 0\n",
    ),
    (
        "explain b s total a",
        SUMS,
        b"",
        "0\ntotal runs: no record\na is an input\n",
    ),
    ("clean b s", "no book", b"", "0\ncleaned\n"),
    (
        "build b s total",
        SUMS,
        b"0123456789",
        "7\ncarte: bad state at byte 0\n",
    ),
    (
        "explain b s total",
        SUMS,
        b"0123456789",
        "7\ncarte: bad state at byte 0\n",
    ),
    (
        "session b s",
        SUMS,
        b"0123456789",
        "7\ncarte: bad state at byte 0\n",
    ),
    (
        "clean b s",
        SUMS,
        b"0123456789",
        "7\ncarte: bad state at byte 0\n",
    ),
];

#[test]
fn runs_show_what_they_did(rt: HostRuntime) -> Result<(), Fail> {
    for (words, book, state, want) in RUNS {
        let text = shown_over(&rt, rt.alloc(), words, book, state)?;
        assert_eq!(rt; text.as_str(), *want, "{words} of {book}");
    }
    assert_eq!(rt;
        without_memory(rt.alloc())?.as_str(),
        "9\ncarte: out of memory\n"
    );
    Ok(())
}

/// What is shown where there is no memory for the words themselves.
fn without_memory(alloc: Global) -> Result<String, Fail> {
    let mut err = MemSink::new(alloc, 4096, &[])?;
    let status = out_of_memory(&mut err);
    let said = str::from_utf8(err.bytes())?;
    Ok(format!(in alloc; "{}\n{said}", status.code())?)
}

const SCRIPT: &str =
    "set a 11\nbuild total\nset sum 3\nbuild gone\n\nexplain total a\nclean\nlist\nbuild sum";

/// A session, and behind it an explanation by the next run.
fn session<T: Threads + Sync>(rt: &T, alloc: Global) -> Result<String, Fail> {
    let mut state = Box::new(alloc, MemDisk::of(alloc, &[], &[])?)?;
    let mut text = said(rt, alloc, "session b s --list", SUMS, SCRIPT, &mut state)?;
    text.push_str(shown(rt, alloc, "explain b s total sum", SUMS, &mut state)?.as_str())?;
    Ok(text)
}

const REPLIES: &str =
    "0\nset a\ntotal = 62\nran sum\nran total\nran 2, given up 0, reused 0\nnot set: sum is a rule\nrefused: missing: gone\ntotal reusable\na is an input\ncleaned\nline 8: not understood\nsum = 31\nran sum\nran 1, given up 0, reused 0\n0\ntotal runs: no record\nsum runs: a was 62e7e02ebe7b1ee4cd2120090bc09b8baf24b40c2bb5ef15aa3ad054b1b57412, is 4adca0103f7bb3dcd163484b7a7e3e4cb4cbda0706c6b0af01afd04f9bde2ffa\n";

/// By hand; the digests are those of the spellings of 11 and 10, by another program. What a session has committed, the next
/// run finds.
#[test]
fn a_session_answers_its_lines(rt: HostRuntime) -> Result<(), Fail> {
    let text = session(&rt, rt.alloc())?;
    assert_eq!(rt; text.as_str(), REPLIES);
    Ok(())
}

// A generated book of as many keys as are drawn at most. What is built is kept, and isn't built again.
const LARGE: &str = "generate none s 7 65536";

#[test]
fn large_book(rt: HostRuntime) -> Result<(), Fail> {
    let alloc = rt.alloc();
    let mut state = Box::new(alloc, MemDisk::of(alloc, &[], &[])?)?;
    let first = shown(&rt, alloc, LARGE, "", &mut state)?;
    let again = shown(&rt, alloc, LARGE, "", &mut state)?;
    for text in [&first, &again] {
        assert!(rt;
            text.as_str().starts_with("0\nkeys 65536, inputs 6553\n"),
            "{}",
            text
        );
    }
    assert!(rt; again.as_str().contains("\nran 0, "), "{again}");
    Ok(())
}
