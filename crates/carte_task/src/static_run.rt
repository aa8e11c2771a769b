//! A static task is a machine whose answers are there before it starts, so there is no second way in which formulas are evaluated.

ghost use Rattle.std.specs.Prelude.{◌≡◌, ℕ, List, length, None, IfOk, is_ok, if◌then◌else◌};
ghost use Rattle.carte_name.specs.declared.kind.Kind.{Kind as SomeKind};
ghost use Rattle.carte_tree.specs.Tree.{Tree};
ghost use Rattle.carte_effect.specs.Effects.{SameStops};
ghost use Rattle.carte_task.specs.Statics.{StaticRan, Reads, EndsOver, IsOver, IsStaticTaskOf, static_refs, static_key, with_run};

use crate::progress::Progress;
use crate::{Answers, Effect, Ended, FetchList, Halt, Hashed, Runs, StaticTask};
use carte_tree::static_needs;
use carte_value::{Name, Names, NoMemory, Values};
use std::alloc::Global;

impl StaticTask {
    /// The names that it reads, each once, in the order of the formula.
    pub fn refs(&self) -> &Names
        ensures { result.now ≡ static_refs self.now }
    {
        &self.refs
    }

    /// Asks for the values of its references at once, and ends over them. None where they are withheld. Its start and its end are counted where it ends.
    pub fn run<B: FetchList>(
        &self,
        alloc: Global,
        list: &mut B,
        runs: &mut Runs,
    ) -> Result<Option<Ended>, Halt<B::Stop>>
        ensures truth { B.truth list.new ≡ B.truth list.old }
        ensures stops { SameStops (B.stops list.old) (B.stops list.new) }
        ensures ran { StaticRan (B.truth list.old) (B.stops list.old) B.withholds (B.log list.old) (B.log list.new) self.now runs.old runs.new result }
        ensures reads { (kind : SomeKind) (k : List ℕ) (e : Tree) → IsStaticTaskOf kind k e self.now → Reads kind (B.truth list.old) (B.stops list.old) B.withholds k e runs.old runs.new result }
    {
        static_needs();
        self.ask(alloc, list, runs)
    }

    fn ask<B: FetchList>(
        &self,
        alloc: Global,
        list: &mut B,
        runs: &mut Runs,
    ) -> Result<Option<Ended>, Halt<B::Stop>>
        ensures truth { B.truth list.new ≡ B.truth list.old }
        ensures stops { SameStops (B.stops list.old) (B.stops list.new) }
        ensures ran { StaticRan (B.truth list.old) (B.stops list.old) B.withholds (B.log list.old) (B.log list.new) self.now runs.old runs.new result }
    {
        let answers = match list.fetch_list(alloc, &self.refs) {
            Ok(answers) => answers,
            Err(halt) => return Err(halt),
        };
        match answers {
            Answers::Withheld => Ok(None),
            Answers::Values(values) => Ok(Some(self.end(alloc, values, runs)?)),
        }
    }

    // The end over values of its references, which is counted with its start.
    fn end(&self, alloc: Global, values: Values, runs: &mut Runs) -> Result<Ended, NoMemory>
        requires { length values ≡ length (static_refs self.now) }
        ensures ended { IfOk result (EndsOver self.now values) }
        ensures runs { runs.new ≡ (if is_ok result then with_run runs.old (static_key self.now) else runs.old) }
    {
        let progress = self.over(alloc, values)?;
        let value = progress.top(alloc)?;
        let links = progress.links(alloc)?;
        let key = self.key.copy(alloc)?;
        let ended = Ended::new(alloc, key, Hashed::unhashed(value), links)?;
        count(alloc, &self.key, runs)?;
        Ok(ended)
    }

    // What a machine makes of these values, without asking.
    fn over(&self, alloc: Global, values: Values) -> Result<Progress, NoMemory>
        requires { length values ≡ length (static_refs self.now) }
        ensures { IfOk result (IsOver self.now values) }
    {
        let mut progress = Progress::filled(alloc, &self.refs, values, self.hasher)?;
        match progress.drive(alloc, self.kind, self.code.as_slice(), &mut Nothing {}) {
            Ok(()) => Ok(progress),
            Err(Halt::Stop(_)) => unreachable!(),
            Err(Halt::NoMemory) => Err(NoMemory),
        }
    }
}

// One start and one end, or neither.
fn count(alloc: Global, key: &Name, runs: &mut Runs) -> Result<(), NoMemory>
    ensures { runs.new ≡ (if is_ok result then with_run runs.old key.now else runs.old) }
{
    let mut both = Runs::new(alloc);
    both.start(alloc, key)?;
    both.end(alloc, key)?;
    runs.append(both)
}

/// Has no values. All that is asked for was answered before.
#[derive(Drop)]
struct Nothing {}

impl Effect for Nothing {
    type Stop = ();

    ghost truth = { λ s k. None };

    ghost stops = { λ s k stop. Unit {0} };

    ghost log = { λ s. None };

    fn fetch(&mut self, _alloc: Global, _name: &Name) -> Result<Hashed, Halt<()>> {
        Err(Halt::Stop(()))
    }
}
