ghost use Rattle.std.specs.Prelude.{◌≡◌, false, None};
ghost use Rattle.carte_book.specs.Book.{book_view};
ghost use Rattle.carte_state.specs.Around.{over_disk};
ghost use Rattle.carte_state.specs.States.{any_in};
ghost use Rattle.carte_engine.specs.Building.{Builds, answered};
ghost use Rattle.carte_engine.specs.Shown.{ShowsBuild};
ghost use Rattle.carte_engine.specs.Versions.{kept_for};

use crate::{Answer, BuildFault, Built, Engine, Plan, Scheduler};
use carte_book::Book;
use carte_io::Disk;
use carte_rebuild::Rebuilder;
use carte_value::Names;
use carte_wave::Gate;
use std::alloc::Global;
use std::marker::Sync;
use std::thread::Threads;

impl Engine {
    /// Builds the targets, and keeps what was finished: a plan, the commit of its batches, and then its answer. A refused
    /// build keeps what it finished too. Where the disk fails the engine is broken; where there is no room for a batch, or
    /// no memory, those in front of it are kept, and nothing else has changed.
    pub fn build<D: Disk, R: Rebuilder, G: Gate, T: Threads + Sync>(
        &mut self,
        rt: &T,
        alloc: Global,
        disk: &mut D,
        book: &Book,
        rebuilder: &R,
        scheduler: Scheduler,
        workers: usize,
        targets: &Names,
        gate: &G,
    ) -> Result<Built, BuildFault>
        requires { self.old.journal.broken ≡ false }
        ensures { Builds scheduler (R.how rebuilder.now) (book_view book.now) targets.now
            (ShowsBuild R.Job.name R.Job.started R.Job.gives (λ M k j. R.begun rebuilder.now M (book_view book.now) (λ q. None) k j) (R.how rebuilder.now) (book_view book.now) targets.now scheduler workers (kept_for (any_in self.old) (book_view book.now)))
            (over_disk D.tells D.story D.faults disk.old disk.new) self.old self.new result }
    {
        let Plan { batches, answer } = self.plan(
            rt, alloc, book, rebuilder, scheduler, workers, targets, gate,
        )?;
        self.commit(alloc, disk, batches)?;
        answered(answer)
    }
}

fn answered(answer: Answer) -> Result<Built, BuildFault>
    ensures { result ≡ answered answer }
{
    match answer {
        Answer::Built(built) => Ok(built),
        Answer::Refused(reason, _) => Err(BuildFault::Refused(reason)),
    }
}
