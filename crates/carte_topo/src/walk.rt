ghost use Rattle.std.specs.Prelude.{◌≡◌, ◌<◌, ◌≤◌, ◌∷◌, ◌++◌, [], ℕ, List, length, take, slice_get, Some, true, false, IfOk, IfErr, OnOk};
ghost use Rattle.carte_tree.specs.Code.{tree_of};
ghost use Rattle.carte_book.specs.Book.{rule, book_view, content};
ghost use Rattle.carte_book.specs.declared.reason.Reason.TheVariants.{Cycle, Missing};
ghost use Rattle.carte_topo.specs.Walk.{seen_in, is_ready, AllReady, OpensAt, Marks, Tells, names, unwound, Refuses, Enters, Turns, Stands};
ghost use Rattle.carte_topo.specs.Between.{IsBetween, Reaching};
ghost use Rattle.carte_topo.specs.declared.walk.Stage.TheVariants.{OnPath, Passed};
ghost use Rattle.carte_topo.specs.declared.walk.Stop.TheVariants.{NoMemory as StopNoMemory};

use crate::references::references;
use carte_book::{Book, Looked, Reason};
use carte_tree::is_static;
use carte_value::{Name, Names, NoMemory, Seeded};
use indexmap::IndexMap;
use std::alloc::Global;
use std::collections::VecDeque;

/// A rule that waits for another: its references, and the place of the one that it waits for.
#[derive(Drop)]
pub(crate) struct Frame {
    pub(crate) name: Name,
    pub(crate) refs: Names,
    pub(crate) at: usize,
}

/// How far the walk is with a rule that it has met: the rule waits on the path, or is done.
#[derive(Drop)]
pub(crate) enum Stage {
    OnPath,
    Passed,
}

/// Of each rule that was met how far the walk is with it.
pub(crate) type Stages = IndexMap<Name, Stage, Seeded>;

/// Why a walk ended before its end. `Dynamic` says that a dynamic rule was met.
#[derive(Drop)]
pub(crate) enum Stop {
    Refused(Reason),
    Dynamic,
    NoMemory,
}

impl From<NoMemory> for Stop {
    ghost from_gives = { λ _ e. e ≡ StopNoMemory };

    fn from(_: NoMemory) -> Stop {
        Stop::NoMemory
    }
}

/// The walk that orders the rules: each rule is first unvisited, then on the path, then done.
#[derive(Drop)]
pub(crate) struct Walk {
    /// The rules that aren't unvisited, and nothing else.
    pub(crate) stages: Stages,
    /// Its newest rule stands first.
    pub(crate) path: VecDeque<Frame>,
    /// In the order in which they were done.
    pub(crate) done: Names,
}

impl Walk {
    /// Orders what a target needs, and the target.
    pub(crate) fn reach(
        &mut self,
        alloc: Global,
        book: &Book,
        targets: &[Name],
        at: usize,
    ) -> Result<(), Stop>
        requires within { at < length targets.now }
        requires between { IsBetween (book_view book.now) targets.now (seen_in self.old.stages) self.old.path.items self.old.done }
        ensures { (goal : List ℕ) → slice_get targets.now at ≡ Some goal
            → Reaching (book_view book.now) targets.now goal (seen_in self.new.stages) self.new.path.items self.old.done self.new.done result }
    {
        let target = &targets[at];
        if self.is_ready(book, target) {
            return Ok(());
        }
        self.enter(alloc, book, target.copy(alloc)?)?;
        'turns: while let Some(frame) = self.path.pop_front() {
            self.turn(alloc, book, frame)?;
        }
        Ok(())
    }

    // Whether rules may use the name by now: it is an input, or a rule that is done. What was met is a rule, so the book is
    // asked for other names alone.
    fn is_ready(&self, book: &Book, name: &Name) -> bool
        requires { Tells (book_view book.now) (seen_in self.now.stages) self.now.done }
        ensures { result ≡ is_ready (book_view book.now) self.now.done name.now }
    {
        match self.stages.get(name) {
            Some(Stage::Passed) => true,
            Some(Stage::OnPath) => false,
            None => matches!(book.lookup(name), Looked::Input(_)),
        }
    }

    /// Puts a rule that isn't done on the path.
    fn enter(&mut self, alloc: Global, book: &Book, name: Name) -> Result<(), Stop>
        requires { is_ready (book_view book.now) self.old.done name ≡ false }
        ensures enters { Enters (book_view book.now) (seen_in self.old.stages) (seen_in self.new.stages) self.old.path.items self.new.path.items name result }
        ensures done { self.new.done ≡ self.old.done }
    {
        match book.lookup(&name) {
            Looked::None => Err(self.missing(alloc, name)),
            Looked::Rule(formula) => {
                if self.meet(name.copy(alloc)?)?.is_some() {
                    return Err(self.cycle(alloc, name));
                }
                if !is_static(formula) {
                    return Err(Stop::Dynamic);
                }
                let refs = references(alloc, formula, book.hasher())?;
                self.push(Frame { name, refs, at: 0 })
            }
            Looked::Input(_) => unreachable!(),
        }
    }

    // Marks a rule as one on the path, and says how far the walk was with it before.
    fn meet(&mut self, name: Name) -> Result<Option<Stage>, Stop>
        ensures before { IfOk result (λ before. before ≡ seen_in self.old.stages name) }
        ensures marks { OnOk result (Marks (seen_in self.old.stages) (seen_in self.new.stages) name OnPath) }
        ensures never { IfErr result (λ stop. Refuses stop ⊥ (λ reason. ⊥)) }
        ensures path { self.new.path ≡ self.old.path }
        ensures done { self.new.done ≡ self.old.done }
    {
        match self.stages.insert(name, Stage::OnPath) {
            Ok(before) => Ok(before),
            Err(_) => Err(Stop::NoMemory),
        }
    }

    fn push(&mut self, frame: Frame) -> Result<(), Stop>
        ensures path { OnOk result (self.new.path.items ≡ frame ∷ self.old.path.items) }
        ensures never { IfErr result (λ stop. Refuses stop ⊥ (λ reason. ⊥)) }
        ensures stages { self.new.stages ≡ self.old.stages }
        ensures done { self.new.done ≡ self.old.done }
    {
        match self.path.push_front(frame) {
            Ok(()) => Ok(()),
            Err(_) => Err(Stop::NoMemory),
        }
    }

    // The path ends with a name that has nothing.
    fn missing(&mut self, alloc: Global, name: Name) -> Stop
        ensures path { Refuses result ⊥ (λ reason. reason ≡ Missing (unwound (names self.old.path.items) (name ∷ []))) }
        ensures done { self.new.done ≡ self.old.done }
    {
        match self.unwind(alloc, name) {
            Ok(path) => Stop::Refused(Reason::Missing(path)),
            Err(_) => Stop::NoMemory,
        }
    }

    // The path ends with a name that stands on it already.
    fn cycle(&mut self, alloc: Global, name: Name) -> Stop
        ensures path { Refuses result ⊥ (λ reason. reason ≡ Cycle (unwound (names self.old.path.items) (name ∷ []))) }
        ensures done { self.new.done ≡ self.old.done }
    {
        match self.unwind(alloc, name) {
            Ok(path) => Stop::Refused(Reason::Cycle(path)),
            Err(_) => Stop::NoMemory,
        }
    }

    // The names of the path from the oldest on, and then the last.
    fn unwind(&mut self, alloc: Global, last: Name) -> Result<Names, NoMemory>
        ensures names { IfOk result (λ ks. ks ≡ unwound (names self.old.path.items) (last ∷ [])) }
        ensures done { self.new.done ≡ self.old.done }
    {
        let mut path = Names::new(alloc);
        while let Some(frame) = self.path.pop_back() {
            let Frame { name, .. } = frame;
            path.push(name)?;
        }
        path.push(last)?;
        Ok(path)
    }

    /// One turn for the newest rule, which was taken off the path: it goes back with the rule that it waits
    /// for on it, or is done.
    fn turn(&mut self, alloc: Global, book: &Book, frame: Frame) -> Result<(), Stop>
        requires tells { Tells (book_view book.now) (seen_in self.old.stages) self.old.done }
        requires stands { Stands (book_view book.now) self.old.done frame }
        ensures { Turns (book_view book.now) (seen_in self.old.stages) (seen_in self.new.stages) self.old.path.items self.new.path.items self.old.done self.new.done frame result }
    {
        let Frame { name, refs, at } = frame;
        let at = self.first_open(book, &refs, at);
        match refs.get(at) {
            None => self.finish(alloc, name),
            Some(need) => {
                let need = need.copy(alloc)?;
                self.wait(alloc, book, Frame { name, refs, at }, need)
            }
        }
    }

    // The place of the first reference that isn't ready, or how many references there are.
    fn first_open(&self, book: &Book, refs: &Names, from: usize) -> usize
        requires tells { Tells (book_view book.now) (seen_in self.now.stages) self.now.done }
        requires within { from ≤ length refs.now }
        requires before { AllReady (book_view book.now) self.now.done (take from refs.now) }
        ensures { OpensAt (book_view book.now) self.now.done refs.now result }
    {
        let refs = refs.as_slice();
        for at in from..refs.len() {
            if !self.is_ready(book, &refs[at]) {
                return at;
            }
        }
        refs.len()
    }

    // The rule goes back on the path, and the one that it needs goes on top.
    fn wait(&mut self, alloc: Global, book: &Book, frame: Frame, need: Name) -> Result<(), Stop>
        requires { is_ready (book_view book.now) self.old.done need ≡ false }
        ensures enters { Enters (book_view book.now) (seen_in self.old.stages) (seen_in self.new.stages) (frame ∷ self.old.path.items) self.new.path.items need result }
        ensures done { self.new.done ≡ self.old.done }
    {
        self.push(frame)?;
        self.enter(alloc, book, need)
    }

    fn finish(&mut self, alloc: Global, name: Name) -> Result<(), Stop>
        ensures marks { OnOk result (Marks (seen_in self.old.stages) (seen_in self.new.stages) name Passed) }
        ensures done { OnOk result (self.new.done ≡ self.old.done ++ name ∷ []) }
        ensures never { IfErr result (λ stop. Refuses stop ⊥ (λ reason. ⊥)) }
        ensures path { self.new.path ≡ self.old.path }
    {
        match self.stages.insert(name.copy(alloc)?, Stage::Passed) {
            Ok(_) => Ok(self.done.push(name)?),
            Err(_) => Err(Stop::NoMemory),
        }
    }
}
