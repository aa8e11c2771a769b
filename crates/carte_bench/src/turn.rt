ghost use Rattle.std.specs.Prelude.{◌≡◌, true, Some, None, IfOk, OnErr};
ghost use Rattle.carte_bench.specs.Held.{spots_of, book_of};
ghost use Rattle.carte_effect.specs.Jobs.{Gave, Counted};
ghost use Rattle.carte_bench.specs.Spots.{PutAt, is_ready, name_of, seen_in, AreNamed};
ghost use Rattle.carte_bench.specs.declared.slot.Slot.TheVariants as slot;
ghost use Rattle.carte_bench.specs.Turns.{stops_in, Turned, TurnedTo};

use crate::look::Shown;
use crate::{Bench, Slot};
use carte_effect::{Digests, Halt, Job, Made, Runs, Snapshot, Stuck};
use carte_value::{Name, NoMemory};
use std::alloc::Global;

impl<J: Job + Drop> Bench<'_, J> {
    /// One turn of a key that is ready: its job is taken, driven over what the bench shows, and put back. The answer is
    /// what it made, or nothing where it stopped. Where there is no memory the job is lost, and nothing else.
    pub fn turn(
        &mut self,
        alloc: Global,
        name: &Name,
        runs: &mut Runs,
    ) -> Result<Option<Made>, NoMemory>
        requires ready { is_ready (spots_of self.old) (spots_of self.old name.now) ≡ true }
        requires named { AreNamed J.name (spots_of self.old) }
        ensures turned { IfOk result (Turned J.name J.started J.gives (book_of self.old) (spots_of self.old) (spots_of self.new) runs.old runs.new name.now) }
        ensures refused { OnErr result (PutAt (spots_of self.old) (spots_of self.new) name.now slot.Out) }
        ensures book { book_of self.new ≡ book_of self.old }
    {
        match self.turn_to(alloc, name, runs)? {
            Ok(made) => Ok(Some(made)),
            Err(_) => Ok(None),
        }
    }

    /// The same, where the answer tells at which name it stopped, and why. The name of a rule that wasn't demanded yet has its
    /// place in the book as its hint.
    pub fn turn_to(
        &mut self,
        alloc: Global,
        name: &Name,
        runs: &mut Runs,
    ) -> Result<Result<Made, Stuck>, NoMemory>
        requires ready { is_ready (spots_of self.old) (spots_of self.old name.now) ≡ true }
        requires named { AreNamed J.name (spots_of self.old) }
        ensures turned { IfOk result (TurnedTo J.name J.started J.gives (book_of self.old) (spots_of self.old) (spots_of self.new) runs.old runs.new name.now) }
        ensures refused { OnErr result (PutAt (spots_of self.old) (spots_of self.new) name.now slot.Out) }
        ensures book { book_of self.new ≡ book_of self.old }
    {
        let at = self.find(name);
        let (mut job, awaited) = self.take_ready(name, at);
        match self.drive(alloc, &mut job, awaited, runs) {
            Ok(made) => {
                let copy = made.copy()?;
                self.swap(name, at, Slot::Done(made));
                Ok(Ok(copy))
            }
            Err(Halt::Stop(halted)) => {
                // Mostly it is the rule that is demanded next.
                let stop = stop_of(alloc, &halted)?.hinted(self.slots.len());
                self.swap(name, at, Slot::Stopped(job, stop));
                Ok(Err(halted))
            }
            Err(Halt::NoMemory) => Err(NoMemory),
        }
    }

    // Drives a job over what the bench shows. The digests come from the table of the bench, which is no part of that.
    fn drive(
        &mut self,
        alloc: Global,
        job: &mut J,
        awaited: usize,
        runs: &mut Runs,
    ) -> Result<Made, Halt<Stuck>>
        ensures bench { self.new ≡ self.old }
        ensures name { J.name job.new ≡ J.name job.old }
        ensures gave { Gave J.gives (seen_in (book_of self.old) (spots_of self.old)) (stops_in (book_of self.old) (spots_of self.old)) None None job.old job.new result }
        ensures counted { Counted (J.name job.old) (J.started job.old) (J.started job.new) runs.old runs.new result }
    {
        let shown = Shown {
            book: self.book,
            slots: &self.slots,
            awaited,
        };
        let mut snapshot = Snapshot::with(&shown, &mut self.digests);
        let driven = job.drive(alloc, &mut snapshot, runs);
        hashed(driven, &mut self.digests)
    }
}

/// What a drive came to, where what was made has its digest: whoever drives a job takes it here, once, on the thread that
/// made it.
pub fn hashed(driven: Result<Made, Halt<Stuck>>, digests: &mut Digests) -> Result<Made, Halt<Stuck>>
    ensures { result ≡ driven }
{
    match driven {
        Ok(mut made) => {
            made.hash(digests);
            Ok(made)
        }
        Err(halt) => Err(halt),
    }
}

// The name at which a job stopped.
fn stop_of(alloc: Global, stuck: &Stuck) -> Result<Name, NoMemory>
    ensures { IfOk result (λ n. n ≡ name_of stuck.now) }
{
    match stuck {
        Stuck::NotDone(name) => name.copy(alloc),
        Stuck::Missing(name) => name.copy(alloc),
    }
}
