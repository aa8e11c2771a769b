//! Edits of rules between builds, and states of version 1. The numbers are worked out by hand, and by `tests/engine.py`.

use crate::top::runs::shown;
use carte_io::MemDisk;
use std::alloc::Global;
use std::marker::Sync;
use std::process::Abort;
use std::test::Fail;
use std::thread::Threads;

const PLAIN: &str = "[inputs]\na1 = 10\na2 = 20\n[rules]\nb1 = \"a1+a2\"\nb2 = \"b1*2\"\n";

const TURNED: &str = "[inputs]\na1 = 10\na2 = 20\n[rules]\nb1 = \"a2+a1\"\nb2 = \"b1*2\"\n";

const AS_INPUT: &str = "[inputs]\na1 = 10\na2 = 20\nb1 = 30\n[rules]\nb2 = \"b1*2\"\n";

const BESIDE: &str =
    "[inputs]\na1 = 10\na2 = 20\n[rules]\nb1 = \"a1+a2\"\nb2 = \"b1*2\"\nc = \"a1+1\"\n";

const BESIDE_EDITED: &str =
    "[inputs]\na1 = 10\na2 = 20\n[rules]\nb1 = \"a1+a2\"\nb2 = \"b1*2\"\nc = \"a1+2\"\n";

const TRIPLED: &str = "[inputs]\na1 = 10\na2 = 20\n[rules]\nb1 = \"a1+a2\"\nb2 = \"b1*3\"\n";

/// What runs over one state show, one after another, and how many bytes it has then.
fn in_a_row<T: Threads + Sync>(
    rt: &T,
    alloc: Global,
    state: &[u8],
    runs: &[(&str, &str)],
) -> Result<String, Fail> {
    let mut state = Box::new(alloc, MemDisk::of(alloc, state, &[])?)?;
    let mut text = all_shown(rt, alloc, &mut state, runs)?;
    let length = state.bytes().len();
    text.push_str(format!(in alloc; "{length}")?.as_str())?;
    Ok(text)
}

fn all_shown<T: Threads + Sync>(
    rt: &T,
    alloc: Global,
    state: &mut MemDisk,
    runs: &[(&str, &str)],
) -> Result<String, Fail> {
    let mut text = String::new(alloc);
    for (words, book) in runs {
        text.push_str(shown(rt, alloc, words, book, state)?.as_str())?;
    }
    Ok(text)
}

/// An edit that leaves the value of its rule as it was runs that rule alone where values are compared.
const FIRST: &str = "0\nb2 = 60\nran 2, given up 0, reused 0\n0\n";

const REBUILDERS: &[(&str, &str)] = &[
    (
        "build b s b2 --rebuilder dirty",
        "b2 = 60\nran 2, given up 0, reused 0\n",
    ),
    ("build b s b2", "b2 = 60\nran 1, given up 0, reused 1\n"),
    (
        "build b s b2 --rebuilder constructive",
        "b2 = 60\nran 1, given up 0, reused 1\n",
    ),
    (
        "build b s b2 --rebuilder deep",
        "b2 = 60\nran 2, given up 0, reused 0\n",
    ),
];

const OLD: &[u8] =
    b"CARTE01\x0a\x01\0\0\x01\xa7\x01\x01\x1d\x07\xf4@-\x80\x81g\x86B_\x15\xa7\xb3\xc7\x957p\x04L\xa5.\x97\xc7\xd5aA\xf6\xa8\xc28\xbc\0\0\0\x02\x01\0\0\0\0\0\0\0\x1e\x01\0\0\0\0\0\0\0<\0\0\0\x02\x02a1J\xdc\xa0\x10?{\xb3\xdc\xd1cHKz~>L\xb4\xcb\xda\x07\x06\xc6\xb0\xaf\x01\xaf\xd0O\x9b\xde/\xfa\x02a2\xb2\x0e\xca\x9eTX\x04[-C\xe2\xbb\xc7\x17\xd0\x110\xb9p]\xc0,\xb8\x98\x5c\x02 \xd0^)\x10c\0\0\0\0\0\0\0\x02\x02b17@\xe6\x7f\x8dy\xfdu\x82z&r\xf1\x83\xbc]\x82a\xba\xbb\xb4\x10\xfda\xc3>U\x1d \xca#D\0\0\0\0\x02\x02a1\x02a2\x02b2\xb1#\xd9\x83`\xd2\xb8\xce\xf4w\x915l\xf4\x97f\x5c>\x14[\x18\xef\x86D\xfc\x80.\x04\xebM\xf4\x87\0\0\0\0\x01\x02b1\0\0\0\x02\x02b1\0\0\0\x02\x02a1J\xdc\xa0\x10?{\xb3\xdc\xd1cHKz~>L\xb4\xcb\xda\x07\x06\xc6\xb0\xaf\x01\xaf\xd0O\x9b\xde/\xfa\x02a2\xb2\x0e\xca\x9eTX\x04[-C\xe2\xbb\xc7\x17\xd0\x110\xb9p]\xc0,\xb8\x98\x5c\x02 \xd0^)\x10c7@\xe6\x7f\x8dy\xfdu\x82z&r\xf1\x83\xbc]\x82a\xba\xbb\xb4\x10\xfda\xc3>U\x1d \xca#D\x02b2\0\0\0\x01\x02b17@\xe6\x7f\x8dy\xfdu\x82z&r\xf1\x83\xbc]\x82a\xba\xbb\xb4\x10\xfda\xc3>U\x1d \xca#D\xb1#\xd9\x83`\xd2\xb8\xce\xf4w\x915l\xf4\x97f\x5c>\x14[\x18\xef\x86D\xfc\x80.\x04\xebM\xf4\x87\0\0\0\0\0\0\0\0\0\0";

// A state, the runs over it, and what they show. A batch of version 2 that a small build brings has 523 bytes, one that
// clears 35, and a frame 5.
const RUNS: &[(&[u8], &[(&str, &str)], &str)] = &[
    // A rule beside what is built is nothing to its deep traces.
    (
        b"",
        &[
            ("build b s b2 --rebuilder deep", BESIDE),
            ("build b s b2 --rebuilder deep", BESIDE_EDITED),
        ],
        "0\nb2 = 60\nran 2, given up 0, reused 0\n0\nb2 = 60\nran 0, given up 0, reused 1\n624",
    ),
    // A rule becomes an input with its value: what stands above it is held.
    (
        b"",
        &[("build b s b2", PLAIN), ("build b s b2", AS_INPUT)],
        "0\nb2 = 60\nran 2, given up 0, reused 0\n0\nb2 = 60\nran 0, given up 0, reused 1\n690",
    ),
    (
        b"",
        &[("build b s b2", PLAIN), ("explain b s b1 b2", TURNED)],
        "0\nb2 = 60\nran 2, given up 0, reused 0\n0\nb1 runs: rule changed\nb2 reusable\n537",
    ),
    (
        b"",
        &[
            ("build b s b2 --rebuilder dirty", PLAIN),
            ("explain b s b1 b2 --rebuilder dirty", TURNED),
        ],
        "0\nb2 = 60\nran 2, given up 0, reused 0\n0\nb1 runs: rule changed: b1\nb2 runs: rule changed: b2 -> b1\n290",
    ),
    // What version 1 kept is kept under the tasks of the book, where that has the rules that it was kept of.
    (
        OLD,
        &[("build b s b2", PLAIN)],
        "0\nb2 = 60\nran 0, given up 0, reused 2\n965",
    ),
    (
        OLD,
        &[("build b s b2", TRIPLED)],
        "0\nb2 = 90\nran 2, given up 0, reused 0\n1005",
    ),
    (
        OLD,
        &[
            ("explain b s b2", PLAIN),
            ("clean b s", PLAIN),
            ("build b s b2", PLAIN),
        ],
        "0\nb2 reusable\n0\ncleaned\n0\nb2 = 60\nran 2, given up 0, reused 0\n1005",
    ),
];

#[test]
fn rules_change_between_runs(rt: HostRuntime) -> Result<(), Fail> {
    for (words, want) in REBUILDERS {
        let text = in_a_row(&rt, rt.alloc(), b"", &[(*words, PLAIN), (*words, TURNED)])?;
        assert!(rt;
            text.starts_with(FIRST) && text.contains(*want),
            "{words}: {text}"
        );
    }
    each_row(&rt, rt.alloc())
}

fn each_row<R: Abort + Threads + Sync>(rt: &R, alloc: Global) -> Result<(), Fail> {
    for (state, runs, want) in RUNS {
        let text = in_a_row(rt, alloc, state, runs)?;
        assert_eq!(rt; text.as_str(), *want);
    }
    Ok(())
}
