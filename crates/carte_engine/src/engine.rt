ghost use Rattle.std.specs.Prelude.{◌≡◌, ◌<◌, ◌^◌, ℕ, false, is_some, IfOk, IfSome, None, Err};
ghost use Rattle.carte_io.specs.Causes.{HasCauseOf};
ghost use Rattle.carte_book.specs.Book.{book_view};
ghost use Rattle.carte_mark.specs.Bases.{IsBegun};
ghost use Rattle.carte_record.specs.Kept.{kept_view};
ghost use Rattle.carte_state.specs.Folding.{IsBadState};
ghost use Rattle.carte_state.specs.Runs.{AreUnmarked, BeginAll};
ghost use Rattle.carte_state.specs.States.{IsLoaded, any_in, kept_in};
ghost use Rattle.carte_engine.specs.Answers.{IsPlan};
ghost use Rattle.carte_engine.specs.Shown.{ShowsBuild};
ghost use Rattle.carte_engine.specs.Versions.{Under, kept_for, kept_or};

use crate::basis::{begin_on, raised};
use crate::planned::{plan_over, raising};
use crate::{Plan, Scheduler};
use carte_book::Book;
use carte_io::Disk;
use carte_mark::{Begun, know_tasks};
use carte_rebuild::Rebuilder;
use carte_record::Kept;
use carte_state::{LoadFault, State};
use carte_value::{Names, NoMemory, Seeded};
use carte_wave::Gate;
use std::alloc::Global;
use std::marker::{Model, Sync};
use std::thread::Threads;

/// What is kept from build to build, and the builds over it. It doesn't hold the disk: each call that takes one is meant
/// for the disk that the engine was loaded from, as its own calls left it.
#[derive(Drop)]
pub struct Engine {
    pub(crate) state: State,
}

impl Model for Engine {
    ghost use Rattle.carte_state.specs.States.{Stand};

    ghost Value = { Stand };

    ghost view = { λ e. e.state };
}

impl Engine {
    /// Reads what the file keeps, as `State::load` does.
    pub fn load<D: Disk>(
        alloc: Global,
        disk: &mut D,
        limit: u64,
        hasher: Seeded,
    ) -> Result<Engine, LoadFault>
        requires { limit < 2 ^ 32 }
        ensures read { D.tells → IfOk result (λ s. IsLoaded s (D.story disk.old).now.reads) }
        ensures starts { IfOk result (λ s. (s.journal.limit ≡ limit) × (s.journal.broken ≡ false)) }
        ensures bad { D.tells → (offset : ℕ) → result ≡ Err (LoadFault.BadState offset)
            → IsBadState limit (D.story disk.old).now.reads offset }
        ensures cause { HasCauseOf LoadFault.DiskFault (D.faults disk.old) (D.faults disk.new) result }
        ensures same { D.tells → D.story disk.new ≡ D.story disk.old }
    {
        let state = State::load(alloc, disk, limit, hasher)?;
        Ok(Engine { state })
    }

    /// The same by at most so many threads, as `State::load_by` does.
    pub fn load_by<D: Disk, G: Gate, T: Threads + Sync>(
        rt: &T,
        alloc: Global,
        disk: &mut D,
        limit: u64,
        hasher: Seeded,
        workers: usize,
        gate: &G,
    ) -> Result<Engine, LoadFault>
        requires { limit < 2 ^ 32 }
        ensures read { D.tells → IfOk result (λ s. IsLoaded s (D.story disk.old).now.reads) }
        ensures starts { IfOk result (λ s. (s.journal.limit ≡ limit) × (s.journal.broken ≡ false)) }
        ensures bad { D.tells → (offset : ℕ) → result ≡ Err (LoadFault.BadState offset)
            → IsBadState limit (D.story disk.old).now.reads offset }
        ensures cause { HasCauseOf LoadFault.DiskFault (D.faults disk.old) (D.faults disk.new) result }
        ensures same { D.tells → D.story disk.new ≡ D.story disk.old }
    {
        let state = State::load_by(rt, alloc, disk, limit, hasher, workers, gate)?;
        Ok(Engine { state })
    }

    /// What is kept; of version 1 nothing, until a commit makes version 2 of it.
    pub fn kept(&self) -> &Kept
        ensures { result.now ≡ self.now.kept }
    {
        self.state.kept()
    }

    /// Whether what is kept is of version 1. Then a build asks for the digest of the book's rules, which the book should
    /// know.
    pub fn is_old(&self) -> bool
        ensures { result ≡ is_some self.now.one }
    {
        self.state.is_old()
    }

    /// Has the book know the digests of the tasks of the keys that have entries. Whoever builds lets it know them first: it
    /// is no work where the book knows as many, as in the next line of a session. Where there are many, `rt` gives a thread
    /// for half of them.
    pub fn know_tasks<T: Threads>(
        &self,
        rt: &T,
        alloc: Global,
        book: &mut Book,
    ) -> Result<(), NoMemory>
        ensures { book_view book.new ≡ book_view book.old }
    {
        know_tasks(rt, alloc, &self.kept().entries, book)
    }

    /// What a build of the book finds to be kept, as a second one: what became of it by the book's rules, where it is of
    /// version 1. It copies all that is kept: whoever only looks takes `raised`, and else `kept`.
    pub fn kept_for(&self, alloc: Global, book: &Book) -> Result<Kept, NoMemory>
        ensures { IfOk result (λ kept. kept_view kept ≡ kept_for (any_in self.now) (book_view book.now)) }
    {
        match self.raised(alloc, book)? {
            Some(kept) => Ok(kept),
            None => self.kept().copy(alloc),
        }
    }

    /// What becomes of what is kept of version 1 by the book's rules. None just where it is of version 2, and there what a
    /// build finds is `kept`.
    pub fn raised(&self, alloc: Global, book: &Book) -> Result<Option<Kept>, NoMemory>
        ensures finds { IfOk result (λ made. kept_or (kept_in self.now) made ≡ kept_for (any_in self.now) (book_view book.now)) }
        ensures old { IfOk result (λ made. is_some made ≡ is_some self.now.one) }
    {
        raised(alloc, &self.state, book)
    }

    /// Whether a commit met a fault of the disk. What the file keeps is then not known, and it has to be loaded again.
    pub fn is_broken(&self) -> bool
        ensures { result ≡ self.now.journal.broken }
    {
        self.state.is_broken()
    }

    /// Works out a build of the targets: what it answers, and the batches that it brings to the state. Nothing is changed,
    /// and no call of a disk is made. What is known of it holds where what is kept is sound, for whatever history; and
    /// whatever is kept, each value that is answered is that of an input, or of a key that was finished. Where what is kept
    /// is of version 1, the first batch makes version 2 of it, and the build is worked out over what that leaves.
    ///
    /// Over a state of version 1 the digest of the book's rules is asked for, so whoever builds lets the book know it first
    /// (`Book::know_digest`).
    ///
    /// Where rules wait for what they need, several workers drive side by side those that can go on, and `gate` is passed
    /// by each of them. No clause names them: what is told is told for any number. Other schedulers take no notice of them.
    pub fn plan<R: Rebuilder, G: Gate, T: Threads + Sync>(
        &mut self,
        rt: &T,
        alloc: Global,
        book: &Book,
        rebuilder: &R,
        scheduler: Scheduler,
        workers: usize,
        targets: &Names,
        gate: &G,
    ) -> Result<Plan, NoMemory>
        ensures kept { self.new ≡ self.old }
        ensures unmarked { IfOk result (λ p. AreUnmarked p.batches.items) }
        ensures begins { IfOk result (λ p. BeginAll (any_in self.old) p.batches.items) }
        ensures plans { Under (any_in self.old) (book_view book.now)
            (IfOk result (λ p. IsPlan scheduler (R.how rebuilder.now) (any_in self.old) (book_view book.now) targets.now p.batches.items p.answer)) }
        ensures shows { IfOk result (λ p. ShowsBuild R.Job.name R.Job.started R.Job.gives (λ M k j. R.begun rebuilder.now M (book_view book.now) (λ q. None) k j) (R.how rebuilder.now) (book_view book.now) targets.now scheduler workers (kept_for (any_in self.old) (book_view book.now)) p.answer) }
    {
        self.plan_from(
            rt, alloc, book, None, rebuilder, scheduler, workers, targets, gate,
        )
    }

    /// The same where it may be known what the build begins with, as a watch tells it (`carte_mark::Watch`): then not all
    /// that is kept is looked at.
    pub fn plan_from<R: Rebuilder, G: Gate, T: Threads + Sync>(
        &mut self,
        rt: &T,
        alloc: Global,
        book: &Book,
        known: Option<Begun>,
        rebuilder: &R,
        scheduler: Scheduler,
        workers: usize,
        targets: &Names,
        gate: &G,
    ) -> Result<Plan, NoMemory>
        requires { IfSome known (IsBegun (kept_for (any_in self.old) (book_view book.now)) (book_view book.now)) }
        ensures kept { self.new ≡ self.old }
        ensures unmarked { IfOk result (λ p. AreUnmarked p.batches.items) }
        ensures begins { IfOk result (λ p. BeginAll (any_in self.old) p.batches.items) }
        ensures plans { Under (any_in self.old) (book_view book.now)
            (IfOk result (λ p. IsPlan scheduler (R.how rebuilder.now) (any_in self.old) (book_view book.now) targets.now p.batches.items p.answer)) }
        ensures shows { IfOk result (λ p. ShowsBuild R.Job.name R.Job.started R.Job.gives (λ M k j. R.begun rebuilder.now M (book_view book.now) (λ q. None) k j) (R.how rebuilder.now) (book_view book.now) targets.now scheduler workers (kept_for (any_in self.old) (book_view book.now)) p.answer) }
    {
        let basis = begin_on(alloc, &mut self.state, book, known)?;
        let plan = plan_over(
            rt,
            alloc,
            rebuilder,
            &basis.begun,
            basis.base(&self.state),
            book,
            scheduler,
            workers,
            targets,
            gate,
        );
        basis.leave(&mut self.state);
        raising(alloc, &self.state, book, plan?)
    }
}
