// Reading the state, and opening a shell over it.
ghost use Rattle.std.specs.Prelude.{◌≡◌, Err, MatchResult};
ghost use Rattle.carte_book.specs.Book.{book_view};
ghost use Rattle.carte_shell.specs.Scenes.{scene};
ghost use Rattle.carte_top.specs.Around.{over_disk};
ghost use Rattle.carte_top.specs.Running.{LoadsState, Opens, unloaded_of};

use carte_book::Book;
use carte_engine::{Engine, LoadFault};
use carte_io::Disk;
use carte_report::Status;
use carte_shell::{Choices, Shell};
use carte_value::Seeded;
use carte_wave::Gate;
use std::alloc::Global;
use std::marker::Sync;
use std::thread::Threads;

const MOST_STATE: u64 = 536870912;

// By as many threads as there are workers, one of which reads what is short.
fn load_state<D: Disk, G: Gate, T: Threads + Sync>(
    rt: &T,
    alloc: Global,
    state: &mut D,
    hasher: Seeded,
    workers: usize,
    gate: &G,
) -> Result<Engine, Status>
    ensures { LoadsState 536870912 (over_disk D.tells D.story D.faults state.old state.new) result }
{
    match Engine::load_by(rt, alloc, state, MOST_STATE, hasher, workers, gate) {
        Ok(engine) => Ok(engine),
        Err(fault) => Err(unloaded(fault)),
    }
}

fn unloaded(fault: LoadFault) -> Status
    ensures { result ≡ unloaded_of fault }
{
    match fault {
        LoadFault::DiskFault => Status::DiskFault,
        LoadFault::BadState(offset) => Status::BadState(offset),
        LoadFault::NoMemory => Status::NoMemory,
    }
}

/// A shell over a book and what the state keeps, or the status of a run that ends there. Nothing is written. The state is
/// read by as many workers as are chosen, each of which passes the gate before its part.
pub(crate) fn open<D: Disk, G: Gate, T: Threads + Sync>(
    rt: &T,
    alloc: Global,
    choices: Choices,
    book: Book,
    state: &mut D,
    gate: &G,
) -> Result<Shell, Status>
    ensures { MatchResult result
        (λ shell. Opens 536870912 choices (book_view book) (over_disk D.tells D.story D.faults state.old state.new) (scene D.story D.faults (shell, state.new)))
        (λ status. LoadsState 536870912 (over_disk D.tells D.story D.faults state.old state.new) (Err status)) }
{
    match load_state(rt, alloc, state, book.hasher(), choices.workers, gate) {
        Ok(engine) => Ok(Shell::new(choices, book, engine)),
        Err(status) => Err(status),
    }
}
