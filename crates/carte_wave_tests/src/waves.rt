//! Books built in waves by so many workers, and by suspending.

use crate::gates::{Meeting, Wide};
use carte_book::{Book, Reason};
use carte_rebuild::{Work, WorkEnd};
use carte_record::Kept;
use carte_rules::read_rules;
use carte_value::{Name, Names, Seeded};
use carte_verify::Verify;
use carte_wave::{Gate, NoGate};
use std::alloc::Global;
use std::marker::Sync;
use std::process::Abort;
use std::test::Fail;
use std::thread::Threads;

// Books, what is kept and the ends of builds are boxed here, so that one call drops each.
fn book_of(alloc: Global, text: &str) -> Result<Box<Book>, Fail> {
    let book = read_rules(alloc, text.as_bytes(), Seeded::of(7)).map_err(|_| Fail::new("no book"))?;
    Ok(Box::new(alloc, book)?)
}

fn targets_of(alloc: Global, texts: &str) -> Result<Names, Fail> {
    let mut targets = Names::new(alloc);
    for text in texts.split(' ') {
        targets.push(Name::rule(alloc, text)?)?;
    }
    Ok(targets)
}

/// A build over nothing kept, in waves.
fn by_waves<G: Gate, T: Threads + Sync>(
    rt: &T,
    alloc: Global,
    book: &Book,
    targets: &Names,
    workers: usize,
    gate: &G,
) -> Result<String, Fail> {
    let kept = Box::new(alloc, Kept::empty(alloc, Seeded::of(7)))?;
    let end = carte_wave::build(rt, alloc, &Verify, &kept, book, targets, workers, gate)?;
    let end = Box::new(alloc, end)?;
    told(alloc, &end)
}

/// The same by suspending.
fn by_suspending(alloc: Global, book: &Book, targets: &Names) -> Result<String, Fail> {
    let kept = Box::new(alloc, Kept::empty(alloc, Seeded::of(7)))?;
    let end = carte_suspend::build(alloc, &Verify, &kept, book, targets)?;
    let end = Box::new(alloc, end)?;
    told(alloc, &end)
}

/// How many tasks were started, in byte order each that ended and each value, and the path where the build is refused.
fn told(alloc: Global, end: &WorkEnd) -> Result<String, Fail> {
    match end {
        WorkEnd::All(work) => listed(alloc, work),
        WorkEnd::Refused(work, reason) => {
            let mut text = listed(alloc, work)?;
            text.push_str(" refused")?;
            for name in path_of(reason).as_slice() {
                text.push_str(" ")?;
                text.push_str(name.text())?;
            }
            Ok(text)
        }
    }
}

fn path_of(reason: &Reason) -> &Names {
    match reason {
        Reason::Cycle(path) | Reason::Missing(path) | Reason::Dynamic(path) => path,
    }
}

fn listed(alloc: Global, work: &Work) -> Result<String, Fail> {
    let mut words = values_of(alloc, work)?;
    for name in work.runs.ended().as_slice() {
        words.push(String::from_str(alloc, name.text())?)?;
    }
    words.sort_unstable();
    let mut text = format!(in alloc; "{}", work.runs.started())?;
    for word in &words {
        text.push_str(" ")?;
        text.push_str(word.as_str())?;
    }
    Ok(text)
}

fn values_of(alloc: Global, work: &Work) -> Result<Vec<String>, Fail> {
    let mut words = Vec::new(alloc);
    for one in work.finished.as_slice() {
        let value = one.made.value().print(alloc)?;
        let word = format!(in alloc; "{}={value}", one.made.key().text())?;
        words.push(word)?;
    }
    Ok(words)
}

const DIAMOND: &str =
    "[inputs]\nx = 1\ny = 2\n[rules]\nbase = 'x + y'\nleft = 'base + x'\nright = 'y + base'\ntop = 'left + right'";

const CHAIN: &str = "[inputs]\nx = 1\n[rules]\na = 'x + 1'\nb = 'a + 1'\nc = 'b * 5'";

const CIRCLE: &str =
    "[inputs]\nx = 1\n[rules]\na = 'b + c'\nb = 'x + 1'\nc = 'c'\nd = 'a + e'\ne = 'b + 5'";

const MISSING: &str = "[inputs]\nx = 1\n[rules]\na = 'b + far'\nb = 'x + 1'\nd = 'b + b'";

const DYNAMIC: &str =
    "[inputs]\nx = 1\nno = 0\nway = 'left'\n[rules]\nleft = 'x + 1'\nright = 'far'\npick = 'INDIRECT(way)'\nsome = 'IF(no, right, pick)'\ntop = 'some + pick'";

/// Worked out by hand. What is stuck doesn't hold up what isn't, and a rule that no value leads to isn't started.
const BUILDS: &[(&str, &str, &str)] = &[
    (
        DIAMOND,
        "top",
        "4 base base=3 left left=4 right right=5 top top=9",
    ),
    (DIAMOND, "x left left", "2 base base=3 left left=4"),
    (CHAIN, "c", "3 a a=2 b b=3 c c=15"),
    (CIRCLE, "a d e", "5 b b=2 e e=7 refused a c c"),
    (MISSING, "a d", "3 b b=2 d d=4 refused a far"),
    (
        DYNAMIC,
        "top",
        "4 left left=2 pick pick=2 some some=2 top top=4",
    ),
];

/// That a build comes to this by suspending and, for each number of workers, in waves.
fn comes_to<R: Threads + Abort + Sync>(
    rt: &R,
    alloc: Global,
    book: &Book,
    targets: &Names,
    want: &str,
) -> Result<(), Fail> {
    let waited = by_suspending(alloc, book, targets)?;
    assert_eq!(rt; waited.as_str(), want);
    for workers in [1, 2, 7, 64] {
        let wide = by_waves(rt, alloc, book, targets, workers, &Wide)?;
        assert_eq!(rt; wide.as_str(), want, "{workers}");
    }
    let free = by_waves(rt, alloc, book, targets, 7, &NoGate)?;
    assert_eq!(rt; free.as_str(), want);
    Ok(())
}

#[test]
fn waves_come_to_what_waiting_does(rt: HostRuntime) -> Result<(), Fail> {
    let alloc = rt.alloc();
    for (rules, targets, want) in BUILDS {
        let book = book_of(alloc, rules)?;
        let targets = targets_of(alloc, targets)?;
        comes_to(&rt, alloc, &book, &targets, want)?;
    }
    Ok(())
}

/// 200 rules over one input, and all of them as targets.
fn many(alloc: Global) -> Result<(Box<Book>, Names), Fail> {
    let mut text = String::from_str(alloc, "[inputs]\nx = 1\n[rules]\n")?;
    let mut targets = Names::new(alloc);
    for number in 0..200u32 {
        let name = format!(in alloc; "r{number}")?;
        let rule = format!(in alloc; "{name} = 'x + {number}'\n")?;
        text.push_str(rule.as_str())?;
        targets.push(Name::rule(alloc, name.as_str())?)?;
    }
    Ok((book_of(alloc, text.as_str())?, targets))
}

/// One wave of 200 jobs: it has parts of several lengths, and three where the gate asks for none.
#[test]
fn so_do_waves_of_many_jobs(rt: HostRuntime) -> Result<(), Fail> {
    let alloc = rt.alloc();
    let (book, targets) = many(alloc)?;
    let want = by_suspending(alloc, &book, &targets)?;
    assert!(&rt;
        want.as_str()
            .starts_with("200 r0 r0=1 r1 r10 r100 r100=101 r101 r101=102 ")
    );
    comes_to(&rt, alloc, &book, &targets, want.as_str())
}

/// One wave of two jobs, in two parts: were one begun only when the other had ended, the test would wait until its time is up.
#[test]
fn two_jobs_meet(rt: HostRuntime) -> Result<(), Fail> {
    let alloc = rt.alloc();
    let book = book_of(alloc, "[inputs]\nx = 1\n[rules]\na = 'x + 1'\nb = 'x + 2'")?;
    let targets = targets_of(alloc, "a b")?;
    let meeting = Meeting::new(&rt);
    let text = by_waves(&rt, alloc, &book, &targets, 2, &meeting)?;
    assert_eq!(&rt; text.as_str(), "2 a a=2 b b=3");
    assert_eq!(&rt; meeting.pairs(), 1);
    Ok(())
}
