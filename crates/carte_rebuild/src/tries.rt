ghost use Rattle.std.specs.Prelude.{◌≡◌, [], is_ok, not, ◌&&◌, false, true, IfOk, OnOk, OnErr, if◌then◌else◌};
ghost use Rattle.carte_effect.specs.Effects.{SameStops};
ghost use Rattle.carte_effect.specs.Ledger.{with_start};
ghost use Rattle.carte_effect.specs.Jobs.{Gave, Counted};
ghost use Rattle.carte_book.specs.Book.{book_view};
ghost use Rattle.carte_book.specs.Needs.{IsRule};
ghost use Rattle.carte_rebuild.specs.Tried.{Tried, FoundBy};

use crate::Checks;
use crate::recipe::Recipe;
use carte_book::Book;
use carte_effect::{Effect, Halt, Job, Made, Reuse, Runs};
use carte_task::Machine;
use carte_value::{Name, NoMemory};
use std::alloc::Global;

/// Checks of earlier ends of a key's task, and then the task. Where an earlier end holds it is given again, and the task
/// is neither made nor started.
#[derive(Drop)]
pub struct Tries {
    // Behind a pointer, since a job goes from hand to hand in each turn, and a task is large.
    stage: Box<Stage>,
}

#[derive(Drop)]
enum Stage {
    // The checks whose verdict is open, of which the last comes next, and what the task is made of.
    Checks(Checks, Recipe),
    // The task, which was started.
    Task(Machine),
}

impl Tries {
    ghost use Rattle.carte_rebuild.specs.Left.{open_in, task_in, name_of, is_started, left_of, IsBegun};
    ghost use Rattle.carte_rebuild.specs.Traced.{IsStart};
    ghost use Rattle.carte_rebuild.specs.Trying.{Gives};

    /// A job that tries these checks of earlier ends of a rule's task, the last one first, and then runs the task.
    pub fn of(alloc: Global, book: &Book, key: &Name, checks: Checks) -> Result<Tries, NoMemory>
        requires { IsRule (book_view book.now) key.now }
        ensures start { IfOk result (IsStart (book_view book.now) key.now checks) }
        ensures name { IfOk result (λ p. name_of p ≡ key.now) }
        ensures idle { IfOk result (λ p. is_started p ≡ false) }
    {
        let recipe = Recipe::of(alloc, book, key)?;
        let stage = Box::new(alloc, Stage::Checks(checks, recipe))?;
        Ok(Tries { stage })
    }

    // Tries what is left of the checks.
    fn try_checks<E: Effect>(
        &mut self,
        alloc: Global,
        effect: &mut E,
    ) -> Result<Option<Reuse>, Halt<E::Stop>>
        ensures truth { E.truth effect.new ≡ E.truth effect.old }
        ensures stops { SameStops (E.stops effect.old) (E.stops effect.new) }
        ensures task { task_in self.new ≡ task_in self.old }
        ensures tried { Tried (E.truth effect.old) (E.stops effect.old) (E.log effect.old) (E.log effect.new) (open_in self.old) (open_in self.new) result }
        ensures found { FoundBy (not (is_started self.old)) result }
    {
        match &mut *self.stage {
            Stage::Checks(checks, _) => checks.try_all(alloc, effect),
            Stage::Task(_) => Ok(None),
        }
    }

    // The task is made and started, where it wasn't.
    fn begin(&mut self, alloc: Global, runs: &mut Runs) -> Result<(), NoMemory>
        ensures begun { OnOk result (IsBegun self.old self.new) }
        ensures kept { OnErr result (self.new ≡ self.old) }
        ensures runs { runs.new ≡ (if is_ok result && not (is_started self.old) then with_start runs.old (name_of self.old) else runs.old) }
    {
        match &*self.stage {
            Stage::Checks(_, recipe) => {
                *self.stage = Stage::Task(recipe.start(alloc, runs)?);
                Ok(())
            }
            Stage::Task(_) => Ok(()),
        }
    }

    // Runs the task, behind the checks.
    fn run<E: Effect>(
        &mut self,
        alloc: Global,
        effect: &mut E,
        runs: &mut Runs,
    ) -> Result<Made, Halt<E::Stop>>
        requires { open_in self.old ≡ [] }
        ensures truth { E.truth effect.new ≡ E.truth effect.old }
        ensures stops { SameStops (E.stops effect.old) (E.stops effect.new) }
        ensures name { name_of self.new ≡ name_of self.old }
        ensures gave { Gave (λ p t a step q. Gives (left_of p) t a step (left_of q)) (E.truth effect.old) (E.stops effect.old) (E.log effect.old) (E.log effect.new) self.old self.new result }
        ensures counted { Counted (name_of self.old) (is_started self.old) (is_started self.new) runs.old runs.new result }
    {
        self.begin(alloc, runs)?;
        match &mut *self.stage {
            Stage::Checks(_, _) => unreachable!(),
            Stage::Task(machine) => Job::drive(machine, alloc, effect, runs),
        }
    }
}

impl Job for Tries {
    ghost use Rattle.carte_rebuild.specs.Left.{name_of, is_started, left_of};
    ghost use Rattle.carte_rebuild.specs.Trying.{Gives, FitsLeft};
    ghost use Rattle.carte_rebuild.specs.TryingFits.{tries_fits_on};
    ghost use Rattle.carte_rebuild.specs.Keyed.{EndsAs, tries_keyed_on};

    ghost name = { λ p. name_of p };

    ghost started = { λ p. is_started p };

    ghost gives = { λ p t a step q. Gives (left_of p) t a step (left_of q) };

    ghost fits = { λ p t k v needs asks. FitsLeft (left_of p) t k v needs asks };

    ghost keyed = { λ p k. EndsAs (left_of p) k };

    ghost keyed_on = { λ p t k a step q. tries_keyed_on left_of p q t k a step };

    ghost fits_on = { λ p t part k v needs asks a step q. tries_fits_on left_of p q t part k v needs asks a step };

    fn key(&self) -> &Name {
        match &*self.stage {
            Stage::Checks(_, recipe) => &recipe.key,
            Stage::Task(machine) => Job::key(machine),
        }
    }

    fn drive<E: Effect>(
        &mut self,
        alloc: Global,
        effect: &mut E,
        runs: &mut Runs,
    ) -> Result<Made, Halt<E::Stop>> {
        match self.try_checks(alloc, effect) {
            Ok(Some(reuse)) => Ok(Made::Reused(reuse)),
            Ok(None) => self.run(alloc, effect, runs),
            Err(halt) => Err(halt),
        }
    }
}
