ghost use Rattle.std.specs.Prelude.{◌≡◌, [], None, IfOk};
ghost use Rattle.carte_effect.specs.Ledger.{no_runs};
ghost use Rattle.carte_rebuild.specs.declared.work.PlanFault.TheVariants.{NoMemory};

use carte_book::Reason;
use carte_effect::Runs;
use carte_note::FinishedList;
use carte_value::{Names, Seeded};
use std::alloc::Global;
use thiserror::Error;

/// For how many finished keys there is room from the start at most: a build of a few keys takes no more, however many are kept.
const ROOM: usize = 1 << 10;

/// What a build has done.
#[derive(Drop)]
pub struct Work {
    /// The keys that it finished, in that order.
    pub finished: FinishedList,
    /// The tasks that it started, and those that it ended.
    pub runs: Runs,
    /// The new chain, where the scheduler makes one.
    pub chain: Option<Names>,
}

impl Work {
    /// Nothing is done yet, and the keys will be hashed by `hasher`. It takes no memory.
    pub fn new(alloc: Global, hasher: Seeded) -> Work
        ensures finished { result.finished ≡ [] }
        ensures runs { result.runs ≡ no_runs }
        ensures chain { result.chain ≡ None }
    {
        Work {
            finished: FinishedList::new(alloc, hasher),
            runs: Runs::new(alloc),
            chain: None,
        }
    }

    /// The same with room for so many finished keys, or for about a thousand.
    pub fn with_room(
        alloc: Global,
        count: usize,
        hasher: Seeded,
    ) -> Result<Work, carte_value::NoMemory>
        ensures finished { IfOk result (λ work. work.finished ≡ []) }
        ensures runs { IfOk result (λ work. work.runs ≡ no_runs) }
        ensures chain { IfOk result (λ work. work.chain ≡ None) }
    {
        Ok(Work {
            finished: FinishedList::with_room(alloc, count.min(ROOM), hasher)?,
            runs: Runs::new(alloc),
            chain: None,
        })
    }
}

/// How a build came to its end.
#[derive(Drop)]
pub enum WorkEnd {
    /// Each target has its value.
    All(Work),
    /// Some target has none, for this reason; what was done stands.
    Refused(Work, Reason),
}

impl WorkEnd {
    /// The same end, whose finished keys are looked up at once from now on.
    pub fn indexed(self) -> Result<WorkEnd, carte_value::NoMemory>
        ensures { IfOk result (λ end. end ≡ self) }
    {
        match self {
            WorkEnd::All(mut work) => {
                work.finished.index()?;
                Ok(WorkEnd::All(work))
            }
            WorkEnd::Refused(mut work, reason) => {
                work.finished.index()?;
                Ok(WorkEnd::Refused(work, reason))
            }
        }
    }
}

/// Why a build has no work to show.
#[derive(Debug, Drop, Error)]
pub enum PlanFault {
    #[error("the rules have no order")]
    Refused(Reason),
    #[error("out of memory")]
    NoMemory,
}

impl From<carte_value::NoMemory> for PlanFault {
    ghost from_gives = { λ _ e. e ≡ NoMemory };

    fn from(_: carte_value::NoMemory) -> PlanFault {
        PlanFault::NoMemory
    }
}
