ghost use Rattle.std.specs.Prelude.{◌≡◌, false, IfOk};
ghost use Rattle.carte_book.specs.Book.{book_view};
ghost use Rattle.carte_book.specs.Needs.{IsRule};

use crate::held::Earlier;
use carte_book::Book;
use carte_effect::{Effect, Halt, Job, Made, Runs};
use carte_rebuild::{Checks, Tries};
use carte_value::{Name, NoMemory};
use std::alloc::Global;

/// The job of a key under deep traces: it gives the result that the key is held by, or else runs the key's task.
#[derive(Drop)]
pub struct DeepJob {
    pub(crate) work: Work,
}

#[derive(Drop)]
pub(crate) enum Work {
    Held(Earlier),
    // A task with no checks before it.
    Task(Tries),
}

impl DeepJob {
    ghost use Rattle.carte_deep.specs.Work.{Starts, has_begun};

    /// The job that gives this end again, if there is one, and else runs the task.
    pub(crate) fn of(
        alloc: Global,
        book: &Book,
        key: &Name,
        earlier: Option<Earlier>,
    ) -> Result<DeepJob, NoMemory>
        requires { IsRule (book_view book.now) key.now }
        ensures start { IfOk result (Starts (book_view book.now) key.now earlier) }
        ensures idle { IfOk result (λ p. has_begun p ≡ false) }
    {
        match earlier {
            Some(earlier) => Ok(DeepJob {
                work: Work::Held(earlier),
            }),
            None => Ok(DeepJob {
                work: Work::Task(Tries::of(alloc, book, key, Checks::new())?),
            }),
        }
    }
}

impl Job for DeepJob {
    ghost use Rattle.carte_rebuild.specs.Trying.{Gives, FitsLeft};
    ghost use Rattle.carte_rebuild.specs.TryingFits.{tries_fits_on};
    ghost use Rattle.carte_rebuild.specs.Keyed.{EndsAs, tries_keyed_on};
    ghost use Rattle.carte_deep.specs.Work.{name_in, has_begun, left_in};

    ghost name = { name_in };

    ghost started = { has_begun };

    ghost gives = { λ p t a step q. Gives (left_in p) t a step (left_in q) };

    ghost fits = { λ p t k v needs asks. FitsLeft (left_in p) t k v needs asks };

    ghost keyed = { λ p k. EndsAs (left_in p) k };

    ghost keyed_on = { λ p t k a step q. tries_keyed_on left_in p q t k a step };

    ghost fits_on = { λ p t part k v needs asks a step q. tries_fits_on left_in p q t part k v needs asks a step };

    fn key(&self) -> &Name {
        match &self.work {
            Work::Held(earlier) => &earlier.key,
            Work::Task(task) => Job::key(task),
        }
    }

    fn drive<E: Effect>(
        &mut self,
        alloc: Global,
        effect: &mut E,
        runs: &mut Runs,
    ) -> Result<Made, Halt<E::Stop>> {
        match &mut self.work {
            Work::Held(earlier) => Ok(Made::Reused(earlier.reuse(alloc)?)),
            Work::Task(task) => Job::drive(task, alloc, effect, runs),
        }
    }
}
