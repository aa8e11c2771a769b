//! Builds over a state, by each rebuilder and in each scheduler's order.
//!
//! A build is proved once for any rebuilder; `by` alone names them, since that their jobs cross threads is proved anew at each call.

ghost use Rattle.std.specs.Prelude.{◌≡◌, false, IfOk};

use crate::books::{book_of, names_of};
use carte_book::Book;
use carte_construct::Construct;
use carte_deep::Deep;
use carte_dirty::Dirty;
use carte_engine::{Built, Engine, Scheduler, history_is_right, plan_is_sound, plan_keeps};
use carte_io::MemDisk;
use carte_rebuild::Rebuilder;
use carte_value::{Names, Seeded};
use carte_verify::Verify;
use carte_wave::NoGate;
use std::alloc::Global;
use std::marker::Sync;
use std::process::Abort;
use std::test::Fail;
use std::thread::Threads;

/// The chain of docs/REBUILDERS.md.
const CHAIN: &str = "b: a / 2; c: b + 1";

// Engines, disks and what was built are boxed here, so that one call drops each.
fn loaded(alloc: Global, disk: &mut MemDisk) -> Result<Box<Engine>, Fail>
    ensures { IfOk result (λ engine. engine.value.journal.broken ≡ false) }
{
    let engine = Engine::load(alloc, disk, 65536, Seeded::of(7))?;
    Ok(Box::new(alloc, engine)?)
}

/// What a build over the disk shows, from loading on.
fn built_of<R: Rebuilder, T: Threads + Sync>(
    rt: &T,
    alloc: Global,
    disk: &mut MemDisk,
    book: &Book,
    rebuilder: &R,
    scheduler: Scheduler,
    workers: usize,
    targets: &Names,
) -> Result<String, Fail> {
    let mut engine = loaded(alloc, disk)?;
    let built = engine.build(
        rt, alloc, disk, book, rebuilder, scheduler, workers, targets, &NoGate,
    )?;
    let built = Box::new(alloc, built)?;
    printed(alloc, &built)
}

/// The target's value, how many rules ran, how many starts were given up, and how many rules were reused.
fn printed(alloc: Global, built: &Built) -> Result<String, Fail> {
    let value = match built.values.get(0) {
        Some(value) => value.print(alloc)?,
        None => String::new(alloc),
    };
    Ok(format!(in alloc;
        "{value} {} {} {}; ",
        built.ran.len(),
        built.given_up,
        built.reused
    )?)
}

/// How many rules a build over the disk would finish.
fn foreseen_of<R: Rebuilder>(
    alloc: Global,
    disk: &mut MemDisk,
    book: &Book,
    rebuilder: &R,
    targets: &Names,
) -> Result<String, Fail> {
    let mut engine = loaded(alloc, disk)?;
    let work = Box::new(alloc, engine.preview(alloc, book, rebuilder, targets)?)?;
    Ok(format!(in alloc; "{} foreseen; ", work.finished.len())?)
}

/// A build, or a preview where there are no workers: one call for both, since that jobs cross threads is proved anew at each.
fn said_of<R: Rebuilder, T: Threads + Sync>(
    rt: &T,
    alloc: Global,
    disk: &mut MemDisk,
    book: &Book,
    rebuilder: &R,
    scheduler: Scheduler,
    workers: usize,
    targets: &Names,
) -> Result<String, Fail> {
    if workers == 0 {
        foreseen_of(alloc, disk, book, rebuilder, targets)
    } else {
        built_of(
            rt, alloc, disk, book, rebuilder, scheduler, workers, targets,
        )
    }
}

/// By one of the four.
fn by<T: Threads + Sync>(
    rt: &T,
    alloc: Global,
    disk: &mut MemDisk,
    book: &Book,
    at: usize,
    scheduler: Scheduler,
    workers: usize,
    targets: &Names,
) -> Result<String, Fail> {
    match at {
        0 => said_of(rt, alloc, disk, book, &Verify, scheduler, workers, targets),
        1 => said_of(
            rt, alloc, disk, book, &Construct, scheduler, workers, targets,
        ),
        2 => said_of(rt, alloc, disk, book, &Deep, scheduler, workers, targets),
        _ => said_of(rt, alloc, disk, book, &Dirty, scheduler, workers, targets),
    }
}

/// The same of c. The book and the targets stand in this function alone: whatever lives is dropped at each question mark.
fn said<T: Threads + Sync>(
    rt: &T,
    alloc: Global,
    disk: &mut MemDisk,
    at: usize,
    scheduler: Scheduler,
    workers: usize,
    a: i64,
) -> Result<String, Fail> {
    let book = book_of(alloc, "a", a, CHAIN)?;
    let targets = names_of(alloc, "c")?;
    by(rt, alloc, disk, &book, at, scheduler, workers, &targets)
}

fn clean(alloc: Global, disk: &mut MemDisk) -> Result<(), Fail> {
    let mut engine = loaded(alloc, disk)?;
    engine.clean(alloc, disk)?;
    Ok(())
}

/// A preview, and one build for each value of a. What was kept is cleaned where the value is 0.
fn in_a_row<T: Threads + Sync>(
    rt: &T,
    alloc: Global,
    at: usize,
    scheduler: Scheduler,
    workers: usize,
) -> Result<String, Fail> {
    let mut disk = Box::new(alloc, MemDisk::of(alloc, &[], &[])?)?;
    let mut text = said(rt, alloc, &mut disk, at, scheduler, 0, 2)?;
    for a in [2, 3, 4, 2, 0, 2] {
        let said = step(rt, alloc, &mut disk, at, scheduler, workers, a)?;
        text.push_str(said.as_str())?;
    }
    Ok(text)
}

fn step<T: Threads + Sync>(
    rt: &T,
    alloc: Global,
    disk: &mut MemDisk,
    at: usize,
    scheduler: Scheduler,
    workers: usize,
    a: i64,
) -> Result<String, Fail> {
    if a == 0 {
        clean(alloc, disk)?;
        return Ok(String::from_str(alloc, "cleaned; ")?);
    }
    said(rt, alloc, disk, at, scheduler, workers, a)
}

// From the table of docs/REBUILDERS.md. By a topological order each rule that didn't run is reused; where rules wait, deep
// traces and marks pass over what is beneath a held one.
const TOPOLOGICAL: [&str; 4] = [
    "2 foreseen; 2 2 0 0; 2 1 0 1; 3 2 0 0; 2 2 0 0; cleaned; 2 2 0 0; ",
    "2 foreseen; 2 2 0 0; 2 1 0 1; 3 2 0 0; 2 0 0 2; cleaned; 2 2 0 0; ",
    "2 foreseen; 2 2 0 0; 2 2 0 0; 3 2 0 0; 2 0 0 2; cleaned; 2 2 0 0; ",
    "2 foreseen; 2 2 0 0; 2 2 0 0; 3 2 0 0; 2 2 0 0; cleaned; 2 2 0 0; ",
];

const SUSPENDING: [&str; 4] = [
    "2 foreseen; 2 2 0 0; 2 1 0 1; 3 2 0 0; 2 2 0 0; cleaned; 2 2 0 0; ",
    "2 foreseen; 2 2 0 0; 2 1 0 1; 3 2 0 0; 2 0 0 2; cleaned; 2 2 0 0; ",
    "2 foreseen; 2 2 0 0; 2 2 0 0; 3 2 0 0; 2 0 0 1; cleaned; 2 2 0 0; ",
    "2 foreseen; 2 2 0 0; 2 2 0 0; 3 2 0 0; 2 2 0 0; cleaned; 2 2 0 0; ",
];

/// The first build finds no chain, and gives c up for b. Deep traces lead to inputs alone, so each build that runs gives c up.
const RESTARTING: [&str; 4] = [
    "2 foreseen; 2 2 1 0; 2 1 0 1; 3 2 0 0; 2 2 0 0; cleaned; 2 2 1 0; ",
    "2 foreseen; 2 2 1 0; 2 1 0 1; 3 2 0 0; 2 0 0 2; cleaned; 2 2 1 0; ",
    "2 foreseen; 2 2 1 0; 2 2 1 0; 3 2 1 0; 2 0 0 1; cleaned; 2 2 1 0; ",
    "2 foreseen; 2 2 1 0; 2 2 0 0; 3 2 0 0; 2 2 0 0; cleaned; 2 2 1 0; ",
];

/// That what each of the four builds is what is wanted of it.
fn each_comes_to<R: Abort + Threads + Sync>(
    rt: &R,
    alloc: Global,
    wanted: &[&str],
    scheduler: Scheduler,
    workers: usize,
) -> Result<(), Fail> {
    for (at, want) in wanted.iter().enumerate() {
        let text = in_a_row(rt, alloc, at, scheduler, workers)?;
        assert_eq!(rt; text.as_str(), *want, "{at}");
    }
    Ok(())
}

#[test]
fn each_rebuilder_builds_in_order(rt: HostRuntime) -> Result<(), Fail> {
    each_comes_to(&rt, rt.alloc(), &TOPOLOGICAL, Scheduler::Topological, 1)
}

#[test]
fn each_rebuilder_builds_what_is_asked_for(rt: HostRuntime) -> Result<(), Fail> {
    each_comes_to(&rt, rt.alloc(), &SUSPENDING, Scheduler::Suspending, 1)
}

#[test]
fn several_workers_build_as_one(rt: HostRuntime) -> Result<(), Fail> {
    each_comes_to(&rt, rt.alloc(), &SUSPENDING, Scheduler::Suspending, 7)
}

#[test]
fn each_rebuilder_begins_anew(rt: HostRuntime) -> Result<(), Fail> {
    each_comes_to(&rt, rt.alloc(), &RESTARTING, Scheduler::Restarting, 1)
}

#[test]
fn laws_are_called() {
    plan_is_sound();
    plan_keeps();
    history_is_right();
}
