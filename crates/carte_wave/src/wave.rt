ghost use Rattle.std.specs.Prelude.{◌≡◌, ◌++◌, [], None, OnOk};
ghost use Rattle.carte_effect.specs.Jobs.{Gave, Counted};
ghost use Rattle.carte_effect.specs.Ledger.{no_runs, with_later};
ghost use Rattle.carte_wave.specs.Drives.{seen_by, stops_by, DrivesOne};

use carte_bench::hashed;
use carte_effect::{Digests, Halt, Job, Look, Made, Runs, Snapshot, Stuck};
use carte_value::NoMemory;
use std::alloc::Global;
use std::collections::VecDeque;

/// Jobs that are to be driven, in order.
pub type Jobs<J> = VecDeque<J>;

/// A job that was driven once, and what it came to.
#[derive(Drop)]
pub struct Driven<J> {
    pub job: J,
    pub outcome: Result<Made, Halt<Stuck>>,
}

/// What jobs came to, in their order, and the ledger of what they started and ended.
#[derive(Drop)]
pub struct Wave<J> {
    pub driven: VecDeque<Driven<J>>,
    pub runs: Runs,
}

impl<J: Job + Drop> Wave<J> {
    /// Nothing was driven. It takes no memory.
    pub(crate) fn new(alloc: Global) -> Wave<J>
        ensures driven { result.driven.items ≡ [] }
        ensures runs { result.runs ≡ no_runs }
    {
        Wave {
            driven: VecDeque::new(alloc),
            runs: Runs::new(alloc),
        }
    }

    /// Puts what later jobs came to behind this.
    pub(crate) fn append(&mut self, later: Wave<J>) -> Result<(), NoMemory>
        ensures driven { OnOk result (self.new.driven.items ≡ self.old.driven.items ++ later.driven.items) }
        ensures runs { OnOk result (self.new.runs ≡ with_later self.old.runs later.runs) }
    {
        let Wave { mut driven, runs } = later;
        self.driven.append(&mut driven)?;
        self.runs.append(runs)
    }

    /// Drives one job more over what the look shows.
    pub(crate) fn drive_one<L: Look>(
        &mut self,
        alloc: Global,
        mut job: J,
        look: &L,
        digests: &mut Digests,
    ) -> Result<(), NoMemory>
        ensures { OnOk result (DrivesOne J.name J.started J.gives (L.sight look.now) job self.old self.new) }
    {
        let outcome = drive(alloc, &mut job, look, digests, &mut self.runs);
        self.driven.push_back(Driven { job, outcome })?;
        Ok(())
    }
}

fn drive<J: Job, L: Look>(
    alloc: Global,
    job: &mut J,
    look: &L,
    digests: &mut Digests,
    runs: &mut Runs,
) -> Result<Made, Halt<Stuck>>
    ensures name { J.name job.new ≡ J.name job.old }
    ensures gave { Gave J.gives (seen_by (L.sight look.now)) (stops_by (L.sight look.now)) None None job.old job.new result }
    ensures counted { Counted (J.name job.old) (J.started job.old) (J.started job.new) runs.old runs.new result }
{
    let mut snapshot = Snapshot::with(look, digests);
    let driven = job.drive(alloc, &mut snapshot, runs);
    hashed(driven, digests)
}
