ghost use Rattle.carte_book.specs.Book.{book_view};
ghost use Rattle.carte_topo.specs.Orders.{Orders};
ghost use Rattle.carte_topo.specs.Between.{Walks, IsStop};

use crate::dynamic_paths::dynamic_path;
use crate::walk::{Stages, Stop, Walk};
use carte_book::{Book, Reason};
use carte_rebuild::PlanFault;
use carte_value::{Name, Names};
use std::alloc::Global;
use std::collections::VecDeque;

/// The rules that the targets reach, each behind those that it refers to, or why there is no such order: for a rule
/// whose references can't be told, or else for the first target without a clean value.
pub fn order(alloc: Global, book: &Book, targets: &Names) -> Result<Names, PlanFault>
    ensures { Orders (book_view book.now) targets.now result }
{
    match walk(alloc, book, targets.as_slice()) {
        Ok(names) => Ok(names),
        Err(stop) => Err(fault(alloc, book, targets.as_slice(), stop)),
    }
}

// A dynamic rule comes first among the reasons.
fn fault(alloc: Global, book: &Book, targets: &[Name], stop: Stop) -> PlanFault
    requires { IsStop (book_view book.now) targets.now stop }
    ensures { Orders (book_view book.now) targets.now (Err result) }
{
    if matches!(stop, Stop::NoMemory) {
        return PlanFault::NoMemory;
    }
    match dynamic_path(alloc, book, targets) {
        Ok(Some(path)) => PlanFault::Refused(Reason::Dynamic(path)),
        Ok(None) => match stop {
            Stop::Refused(reason) => PlanFault::Refused(reason),
            Stop::Dynamic => unreachable!(),
            Stop::NoMemory => PlanFault::NoMemory,
        },
        Err(_) => PlanFault::NoMemory,
    }
}

// The rules that the targets reach, in order, or why the walk ended early.
fn walk(alloc: Global, book: &Book, targets: &[Name]) -> Result<Names, Stop>
    ensures { Walks (book_view book.now) targets.now result }
{
    let mut walk = Walk {
        stages: Stages::with_hasher(alloc, book.hasher()),
        path: VecDeque::new(alloc),
        done: Names::new(alloc),
    };
    for at in 0..targets.len() {
        walk.reach(alloc, book, targets, at)?;
    }
    Ok(walk.done)
}
