ghost use Rattle.std.specs.Prelude.{◌≡◌, is_ok, if◌then◌else◌, IfOk};
ghost use Rattle.carte_tree.specs.Code.{tree_of};
ghost use Rattle.carte_tree.specs.Formula.{IsExpr};
ghost use Rattle.carte_tree.specs.Meaning.{asks};
ghost use Rattle.carte_effect.specs.Effects.{SameStops};
ghost use Rattle.carte_effect.specs.Ledger.{with_start, with_end};

use crate::progress::Progress;
use crate::task::Routine;
use crate::{Effect, Ended, Halt, Hashed, Runs, Task};
use carte_tree::Expr;
use carte_value::{Kind, Name, NoMemory, Seeded};
use std::alloc::Global;

/// A task that runs, halts at a name without a value, and goes on from there. It asks each name at most once, and remembers the answers.
#[derive(Drop)]
pub struct Machine {
    task: Routine,
    progress: Progress,
    ended: bool,
}

impl Machine {
    ghost use Rattle.carte_task.specs.Machines.{state_of, started, Drove, OnlyEnds, EndsWith};
    ghost use Rattle.carte_task.specs.Laws.{IsUnderWay, Steps};
    ghost use Rattle.carte_task.specs.Tasks.{key_of, asks_of, routine_asks};

    /// A machine at the start of a task, which is counted.
    pub fn start(alloc: Global, task: Task, runs: &mut Runs) -> Result<Machine, NoMemory>
        ensures machine { IfOk result (λ m. state_of m ≡ started (key_of task) (asks_of task)) }
        ensures under_way { IfOk result (λ m. IsUnderWay (state_of m)) }
        ensures runs { runs.new ≡ (if is_ok result then with_start runs.old (key_of task) else runs.old) }
    {
        Machine::begin(alloc, task.routine, runs)
    }

    /// The same for the task of a key's formula in a book of that kind, of which nobody asks whether it is static.
    pub fn of(
        alloc: Global,
        kind: Kind,
        key: &Name,
        expr: &Expr,
        hasher: Seeded,
        runs: &mut Runs,
    ) -> Result<Machine, NoMemory>
        requires { IsExpr (tree_of expr.now) }
        ensures machine { IfOk result (λ m. state_of m ≡ started key.now (asks kind (tree_of expr.now))) }
        ensures under_way { IfOk result (λ m. IsUnderWay (state_of m)) }
        ensures runs { runs.new ≡ (if is_ok result then with_start runs.old key.now else runs.old) }
    {
        let routine = Routine::of(alloc, kind, key, expr, hasher)?;
        Machine::begin(alloc, routine, runs)
    }

    fn begin(alloc: Global, task: Routine, runs: &mut Runs) -> Result<Machine, NoMemory>
        ensures machine { IfOk result (λ m. state_of m ≡ started task.key (routine_asks task)) }
        ensures under_way { IfOk result (λ m. IsUnderWay (state_of m)) }
        ensures runs { runs.new ≡ (if is_ok result then with_start runs.old task.key else runs.old) }
    {
        runs.start(alloc, &task.key)?;
        let progress = Progress::new(alloc, task.hasher);
        Ok(Machine {
            task,
            progress,
            ended: false,
        })
    }

    pub(crate) fn task_key(&self) -> &Name
        ensures { result.now ≡ (state_of self.now).key }
    {
        &self.task.key
    }

    /// Whether it has come to its end.
    pub fn has_ended(&self) -> bool
        ensures { result ≡ (state_of self.now).ended }
    {
        self.ended
    }

    /// Goes on to the end, which is counted, or to a name without an answer. After a halt it stands before the fetch that halted, and keeps what was answered.
    /// Each name is answered at most once. How often a fetch that finds no memory is tried isn't promised.
    pub fn drive<E: Effect>(
        &mut self,
        alloc: Global,
        effect: &mut E,
        runs: &mut Runs,
    ) -> Result<Ended, Halt<E::Stop>>
        ensures truth { E.truth effect.new ≡ E.truth effect.old }
        ensures stops { SameStops (E.stops effect.old) (E.stops effect.new) }
        ensures drove { Drove (E.truth effect.old) (E.stops effect.old) (E.log effect.old) (E.log effect.new) (state_of self.old) (state_of self.new) result }
        ensures runs { runs.new ≡ (if is_ok result then with_end runs.old (state_of self.old).key else runs.old) }

        // What that is for the formula of a machine that was started and driven.
        ensures under_way { IsUnderWay (state_of self.old) → IsUnderWay (state_of self.new) }
        ensures steps { IsUnderWay (state_of self.old) → Steps (E.truth effect.old) (E.stops effect.old) (state_of self.old) (state_of self.new) result }
    {
        self.go_on(alloc, effect, runs)
    }

    fn go_on<E: Effect>(
        &mut self,
        alloc: Global,
        effect: &mut E,
        runs: &mut Runs,
    ) -> Result<Ended, Halt<E::Stop>>
        ensures truth { E.truth effect.new ≡ E.truth effect.old }
        ensures stops { SameStops (E.stops effect.old) (E.stops effect.new) }
        ensures drove { Drove (E.truth effect.old) (E.stops effect.old) (E.log effect.old) (E.log effect.new) (state_of self.old) (state_of self.new) result }
        ensures runs { runs.new ≡ (if is_ok result then with_end runs.old (state_of self.old).key else runs.old) }
    {
        match self
            .progress
            .drive(alloc, self.task.kind, self.task.code.as_slice(), effect)
        {
            Ok(()) => {}
            Err(halt) => return Err(halt),
        }
        Ok(self.end(alloc, runs)?)
    }

    // The end, once nothing is left to be done.
    fn end(&mut self, alloc: Global, runs: &mut Runs) -> Result<Ended, NoMemory>
        ensures kept { OnlyEnds (state_of self.old) (state_of self.new) (is_ok result) }
        ensures ended { IfOk result (EndsWith self.old) }
        ensures runs { runs.new ≡ (if is_ok result then with_end runs.old (state_of self.old).key else runs.old) }
    {
        let value = self.progress.top(alloc)?;
        let links = self.progress.links(alloc)?;
        let key = self.task.key.copy(alloc)?;
        let ended = Ended::new(alloc, key, Hashed::unhashed(value), links)?;
        runs.end(alloc, &self.task.key)?;
        self.ended = true;
        Ok(ended)
    }
}
