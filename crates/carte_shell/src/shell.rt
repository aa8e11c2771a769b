ghost use Rattle.std.specs.Prelude.{◌≡◌, true, false, None, IfOk, IfSome, IsTrue, MatchResult, OnOk};
ghost use Rattle.std.specs.List.{list_all};
ghost use Rattle.carte_name.specs.Kinds.{is_name_of};
ghost use Rattle.carte_book.specs.Book.{Book as SomeBook, book_view};
ghost use Rattle.carte_mark.specs.Bases.{IsBegun};
ghost use Rattle.carte_mark.specs.Watching.{SameBut, Watches};
ghost use Rattle.carte_record.specs.Empty.{is_empty};
ghost use Rattle.carte_state.specs.Runs.{AreUnmarked, BeginAll};
ghost use Rattle.carte_state.specs.States.{any_in, kept_in};
ghost use Rattle.carte_engine.specs.Clearing.{clearing};
ghost use Rattle.carte_engine.specs.Versions.{kept_for};
ghost use Rattle.carte_session.specs.declared.end.StepEnd.TheVariants.{NoMemory as OutOfMemory};
ghost use Rattle.carte_shell.specs.Watched.{IsWatchedBehind, IsWatchedIn};
ghost use Rattle.carte_words.specs.declared.line.Line.TheVariants.{Build as build_line, Clean as clean_line};

mod last;

use crate::chosen::plan;
use crate::inputs::set_input;
use crate::stops::{build_reply, stopped};
use crate::why::explanation;
use crate::{Choices, Reply};
use carte_book::Book;
use carte_engine::{Built, Engine, Plan};
use carte_io::Disk;
use carte_mark::{Begun, Watch};
use carte_record::Batch;
use carte_report::{cleaned_line, stray_line};
use carte_session::{Answer, Machine, StepEnd};
use carte_value::{Name, Names, NoMemory, Value};
use carte_wave::{Gate, NoGate};
use carte_words::{Line, read_line};
use std::alloc::Global;
use std::marker::Sync;
use std::thread::Threads;

/// A book and what is kept, in memory, and how builds are made of them: what carries out the lines of a session. Edits stay
/// in memory. From its second build on it watches what changes, so that a build begins in proportion to that.
#[derive(Drop)]
pub struct Shell {
    pub(crate) choices: Choices,
    pub(crate) book: Book,
    pub(crate) engine: Engine,
    watch: Option<Watch>,
    has_built: bool,
    // What the last build made. To let it go takes as long as to look at each of its keys, and a process with one build
    // ends before that; the next build lets it go first.
    made: Option<Built>,
    ghost watched: { IsWatchedIn engine (book_view book) watch },
}

impl<D: Disk> Machine<D> for Shell {
    ghost use Rattle.carte_shell.specs.Answers.{Answers, Ends};
    ghost use Rattle.carte_shell.specs.Scenes.{scene};

    ghost answers = { λ m n line reply m'. Answers D.tells (scene D.story D.faults m) n line reply (scene D.story D.faults m') };

    ghost ends = { λ m n line end m'. Ends D.tells (scene D.story D.faults m) n line end (scene D.story D.faults m') };

    ghost goes_on = { λ shell. shell.engine.journal.broken ≡ false };

    fn step<T: Threads + Sync>(
        &mut self,
        rt: &T,
        alloc: Global,
        disk: &mut D,
        number: usize,
        line: &[u8],
    ) -> Result<Answer, StepEnd> {
        match read_line(alloc, self.book.kind(), line)? {
            Some(line) => match self.obey(rt, alloc, disk, line, &NoGate) {
                Ok(reply) => Ok(Answer {
                    text: reply.text,
                    stays: reply.stays,
                }),
                Err(end) => Err(end),
            },
            None => Ok(Answer {
                text: stray_line(alloc, number)?,
                stays: false,
            }),
        }
    }
}

impl Shell {
    ghost use Rattle.carte_shell.specs.Answers.{Breaks, NamesInput, Obeys, SetsInput, WorksOut};
    ghost use Rattle.carte_shell.specs.Commits.{Puts, Stops};
    ghost use Rattle.carte_shell.specs.Replies.{said};
    ghost use Rattle.carte_shell.specs.Scenes.{scene};

    /// Over an engine that isn't broken. It takes no memory.
    pub fn new(choices: Choices, book: Book, engine: Engine) -> Shell
        ensures choices { result.choices ≡ choices }
        ensures book { result.book ≡ book }
        ensures engine { result.engine ≡ engine }
    {
        Shell {
            choices,
            book,
            engine,
            watch: None,
            has_built: false,
            made: None,
        }
    }

    /// Carries out a request over the disk that the engine was loaded from: the reply, or why there is none. Edits stay in memory.
    /// The reply is made before what it tells of is committed. Where memory runs out all is as it was, or the first batches of the
    /// build are kept, if it ran out between them. Where the disk failed the engine is broken, and no further request may be
    /// made. Of several workers each has a thread of `rt`, and passes `gate` before its part of a wave.
    pub fn obey<D: Disk, G: Gate, T: Threads + Sync>(
        &mut self,
        rt: &T,
        alloc: Global,
        disk: &mut D,
        line: Line,
        gate: &G,
    ) -> Result<Reply, StepEnd>
        requires whole { self.old.engine.journal.broken ≡ false }
        requires named { NamesInput (book_view self.old.book).kind line }
        ensures carried { MatchResult result
            (λ reply. Obeys D.tells (scene D.story D.faults (self.old, disk.old)) line (said reply) (scene D.story D.faults (self.new, disk.new)))
            (λ end. Breaks D.tells (scene D.story D.faults (self.old, disk.old)) line end (scene D.story D.faults (self.new, disk.new))) }
        ensures on { OnOk result (self.new.engine.journal.broken ≡ false) }
        ensures stays { IfOk result (λ reply. reply.stays ≡ true → scene D.story D.faults (self.new, disk.new) ≡ scene D.story D.faults (self.old, disk.old)) }
    {
        match line {
            Line::Set(name, value) => self.set(alloc, &name, value),
            Line::Build(targets) => {
                self.know_digests(rt, alloc)?;
                self.build(rt, alloc, disk, &targets, gate)
            }
            Line::Explain(targets) => {
                self.know_digests(rt, alloc)?;
                let rebuilder = self.choices.rebuilder;
                let reply = explanation(alloc, rebuilder, &mut self.engine, &self.book, &targets)?;
                Ok(reply.staying(true))
            }
            Line::Clean => self.clean(alloc, disk),
            Line::Nothing => Ok(Reply::plain(String::new(alloc))),
        }
    }

    // The name is suspected first; where its value is refused that does no harm.
    fn set(&mut self, alloc: Global, name: &Name, value: Value) -> Result<Reply, StepEnd>
        requires { IsTrue (is_name_of (book_view self.old.book).kind name.now) }
        ensures set { MatchResult result
            (λ reply. SetsInput (book_view self.old.book) (book_view self.new.book) name.now value (said reply))
            (λ end. (end ≡ OutOfMemory) × (book_view self.new.book ≡ book_view self.old.book)) }
        ensures stays { IfOk result (λ reply. reply.stays ≡ false) }
        ensures choices { self.new.choices ≡ self.old.choices }
        ensures engine { self.new.engine ≡ self.old.engine }
    {
        let watch = self.suspected(alloc, name)?;
        let reply = set_input(alloc, &mut self.book, name, value)?;
        self.watch = watch;
        Ok(reply)
    }

    // The watch, which it has no more, over a book in which the name may have another value.
    fn suspected(&mut self, alloc: Global, name: &Name) -> Result<Option<Watch>, NoMemory>
        ensures suspects { IfOk result (λ watch. (c : SomeBook) → SameBut name.now (book_view self.old.book) c → IsWatchedIn self.old.engine c watch) }
        ensures choices { self.new.choices ≡ self.old.choices }
        ensures book { self.new.book ≡ self.old.book }
        ensures engine { self.new.engine ≡ self.old.engine }
        ensures watch { self.new.watch ≡ None }
    {
        match self.watch.take() {
            Some(watch) => Ok(Some(watch.suspect(alloc, name)?)),
            None => Ok(None),
        }
    }

    // The digests of tasks, which no input changes, are worked out once. That of all rules is wanted to read what is kept in
    // version 1.
    fn know_digests<T: Threads>(&mut self, rt: &T, alloc: Global) -> Result<(), NoMemory>
        ensures choices { self.new.choices ≡ self.old.choices }
        ensures book { book_view self.new.book ≡ book_view self.old.book }
        ensures engine { self.new.engine ≡ self.old.engine }
    {
        know_digests(rt, alloc, &self.engine, &mut self.book)
    }

    fn build<D: Disk, G: Gate, T: Threads + Sync>(
        &mut self,
        rt: &T,
        alloc: Global,
        disk: &mut D,
        targets: &Names,
        gate: &G,
    ) -> Result<Reply, StepEnd>
        requires whole { self.old.engine.journal.broken ≡ false }
        ensures carried { MatchResult result
            (λ reply. Obeys D.tells (scene D.story D.faults (self.old, disk.old)) (build_line targets.now) (said reply) (scene D.story D.faults (self.new, disk.new)))
            (λ end. Breaks D.tells (scene D.story D.faults (self.old, disk.old)) (build_line targets.now) end (scene D.story D.faults (self.new, disk.new))) }
        ensures on { OnOk result (self.new.engine.journal.broken ≡ false) }
        ensures stays { IfOk result (λ reply. reply.stays ≡ true → scene D.story D.faults (self.new, disk.new) ≡ scene D.story D.faults (self.old, disk.old)) }
    {
        let (batches, reply, watch) = self.worked_out(rt, alloc, targets, gate)?;
        let stays = bring_nothing(batches.as_slice());
        match self.commit(alloc, disk, batches, watch) {
            Ok(()) => Ok(reply.staying(stays)),
            Err(end) => Err(end),
        }
    }

    // What a build brings and replies, and the watch behind it. All is as it was, but for the watch, which it has no more.
    fn worked_out<G: Gate, T: Threads + Sync>(
        &mut self,
        rt: &T,
        alloc: Global,
        targets: &Names,
        gate: &G,
    ) -> Result<(Vec<Batch>, Reply, Option<Watch>), NoMemory>
        ensures works { IfOk result (λ r. WorksOut self.old.choices self.old.engine (book_view self.old.book) targets.now r.0.items (said r.1)) }
        ensures unmarked { IfOk result (λ r. AreUnmarked r.0.items) }
        ensures begins { IfOk result (λ r. BeginAll (any_in self.old.engine) r.0.items) }
        ensures learned { IfOk result (λ r. IsWatchedBehind self.old.engine (book_view self.old.book) r.0.items r.2) }
        ensures choices { self.new.choices ≡ self.old.choices }
        ensures book { self.new.book ≡ self.old.book }
        ensures engine { self.new.engine ≡ self.old.engine }
    {
        self.made = None;
        let known = self.begin(alloc)?;
        let Plan { batches, answer } = plan(
            rt,
            alloc,
            self.choices,
            &mut self.engine,
            &self.book,
            known,
            targets,
            gate,
        )?;
        let (reply, made) = build_reply(alloc, self.choices.list, targets, answer)?;
        self.made = made;
        let watch = self.learned(alloc, batches.as_slice())?;
        Ok((batches, reply, watch))
    }

    // What a build begins with, where a watch tells it: from the second build on.
    fn begin(&mut self, alloc: Global) -> Result<Option<Begun>, NoMemory>
        ensures begun { IfOk result (λ known. IfSome known (IsBegun (kept_for (any_in self.old.engine) (book_view self.old.book)) (book_view self.old.book))) }
        ensures choices { self.new.choices ≡ self.old.choices }
        ensures book { self.new.book ≡ self.old.book }
        ensures engine { self.new.engine ≡ self.old.engine }
    {
        let has_built = self.has_built;
        self.has_built = true;
        if !has_built || self.engine.is_old() {
            return Ok(None);
        }
        let watch = self.taken(alloc)?;
        let (begun, watch) = watch.begin(alloc, self.engine.kept(), &self.book)?;
        self.watch = Some(watch);
        Ok(Some(begun))
    }

    // The watch, which it has no more, or one that is made.
    fn taken(&mut self, alloc: Global) -> Result<Watch, NoMemory>
        ensures watches { IfOk result (Watches (kept_in self.old.engine) (book_view self.old.book)) }
        ensures choices { self.new.choices ≡ self.old.choices }
        ensures book { self.new.book ≡ self.old.book }
        ensures engine { self.new.engine ≡ self.old.engine }
        ensures watch { self.new.watch ≡ None }
    {
        match self.watch.take() {
            Some(watch) => Ok(watch),
            None => Watch::new(alloc, self.engine.kept(), &self.book),
        }
    }

    // The watch, which it has no more, behind batches that are about to be put.
    fn learned(&mut self, alloc: Global, batches: &[Batch]) -> Result<Option<Watch>, NoMemory>
        ensures learned { IfOk result (IsWatchedBehind self.old.engine (book_view self.old.book) batches.now) }
        ensures choices { self.new.choices ≡ self.old.choices }
        ensures book { self.new.book ≡ self.old.book }
        ensures engine { self.new.engine ≡ self.old.engine }
        ensures watch { self.new.watch ≡ None }
    {
        match self.watch.take() {
            Some(watch) => watch.learn(alloc, self.engine.kept(), batches),
            None => Ok(None),
        }
    }

    fn commit<D: Disk>(
        &mut self,
        alloc: Global,
        disk: &mut D,
        batches: Vec<Batch>,
        watch: Option<Watch>,
    ) -> Result<(), StepEnd>
        requires whole { self.old.engine.journal.broken ≡ false }
        requires learned { IsWatchedBehind self.old.engine (book_view self.old.book) batches.items watch }
        requires unmarked { AreUnmarked batches.items }
        requires begins { BeginAll (any_in self.old.engine) batches.items }
        ensures carried { MatchResult result
            (λ _. Puts D.tells (scene D.story D.faults (self.old, disk.old)) (scene D.story D.faults (self.new, disk.new)) batches.items)
            (λ end. Stops D.tells (scene D.story D.faults (self.old, disk.old)) (scene D.story D.faults (self.new, disk.new)) batches.items end) }
        ensures on { OnOk result (self.new.engine.journal.broken ≡ false) }
    {
        self.watch = None;
        match self.engine.commit(alloc, disk, batches) {
            Ok(()) => {
                self.watch = watch;
                Ok(())
            }
            Err(fault) => Err(stopped(fault)),
        }
    }

    fn clean<D: Disk>(&mut self, alloc: Global, disk: &mut D) -> Result<Reply, StepEnd>
        requires whole { self.old.engine.journal.broken ≡ false }
        ensures carried { MatchResult result
            (λ reply. Obeys D.tells (scene D.story D.faults (self.old, disk.old)) clean_line (said reply) (scene D.story D.faults (self.new, disk.new)))
            (λ end. Breaks D.tells (scene D.story D.faults (self.old, disk.old)) clean_line end (scene D.story D.faults (self.new, disk.new))) }
        ensures on { OnOk result (self.new.engine.journal.broken ≡ false) }
        ensures stays { IfOk result (λ reply. reply.stays ≡ false) }
    {
        let reply = Reply::plain(cleaned_line(alloc)?);
        self.watch = None;
        match self.engine.clean(alloc, disk) {
            Ok(()) => Ok(reply),
            Err(fault) => Err(stopped(fault)),
        }
    }
}

// An empty batch isn't committed.
fn bring_nothing(batches: &[Batch]) -> bool
    ensures { result ≡ list_all is_empty batches.now }
{
    batches.iter().all(|batch| batch.is_empty())
}

fn know_digests<T: Threads>(
    rt: &T,
    alloc: Global,
    engine: &Engine,
    book: &mut Book,
) -> Result<(), NoMemory>
    ensures { book_view book.new ≡ book_view book.old }
{
    if engine.is_old() {
        book.know_digest(alloc)?;
    }
    engine.know_tasks(rt, alloc, book)
}
