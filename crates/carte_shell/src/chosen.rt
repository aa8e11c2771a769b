// The scheduler and the rebuilder that the words choose.
ghost use Rattle.std.specs.Prelude.{◌≡◌, ℕ, IfOk, IfSome, Err};
ghost use Rattle.carte_book.specs.Book.{book_view};
ghost use Rattle.carte_book.specs.Reason.{IsReason};
ghost use Rattle.carte_book.specs.declared.reason.Reason.{Reason as SomeReason};
ghost use Rattle.carte_mark.specs.Bases.{IsBegun};
ghost use Rattle.carte_state.specs.Runs.{AreUnmarked, BeginAll};
ghost use Rattle.carte_state.specs.States.{any_in};
ghost use Rattle.carte_engine.specs.Answers.{IsPlan};
ghost use Rattle.carte_engine.specs.Previews.{IsPreview};
ghost use Rattle.carte_engine.specs.Versions.{Under, kept_for};
ghost use Rattle.carte_explain.specs.Why.{how_of as how_of_kind};
ghost use Rattle.carte_shell.specs.Chosen.{scheduler_of, how_of};
ghost use Rattle.carte_shell.specs.Shown.{ShowsBy};

use crate::Choices;
use carte_book::Book;
use carte_construct::Construct;
use carte_deep::Deep;
use carte_dirty::Dirty;
use carte_engine::{Engine, Plan, Scheduler};
use carte_explain::RebuilderKind;
use carte_mark::Begun;
use carte_rebuild::{PlanFault, Work};
use carte_value::{Names, NoMemory};
use carte_verify::Verify;
use carte_wave::Gate;
use carte_words::{Rebuilder4, Scheduler4};
use std::alloc::Global;
use std::marker::Sync;
use std::thread::Threads;

/// The plan of a build by what the words choose.
pub(crate) fn plan<G: Gate, T: Threads + Sync>(
    rt: &T,
    alloc: Global,
    choices: Choices,
    engine: &mut Engine,
    book: &Book,
    known: Option<Begun>,
    targets: &Names,
    gate: &G,
) -> Result<Plan, NoMemory>
    requires { IfSome known (IsBegun (kept_for (any_in engine.old) (book_view book.now)) (book_view book.now)) }
    ensures kept { engine.new ≡ engine.old }
    ensures unmarked { IfOk result (λ p. AreUnmarked p.batches.items) }
    ensures begins { IfOk result (λ p. BeginAll (any_in engine.old) p.batches.items) }
    ensures plans { Under (any_in engine.old) (book_view book.now)
        (IfOk result (λ p. IsPlan (scheduler_of choices.scheduler) (how_of choices.rebuilder) (any_in engine.old) (book_view book.now) targets.now p.batches.items p.answer)) }
    ensures shows { IfOk result (λ p. ShowsBy choices.rebuilder (scheduler_of choices.scheduler) choices.workers (any_in engine.old) (book_view book.now) targets.now p.answer) }
{
    let by = scheduler_of(choices.scheduler);
    let workers = choices.workers;
    match choices.rebuilder {
        Rebuilder4::Dirty => {
            engine.plan_from(rt, alloc, book, known, &Dirty, by, workers, targets, gate)
        }
        Rebuilder4::Verifying => {
            engine.plan_from(rt, alloc, book, known, &Verify, by, workers, targets, gate)
        }
        Rebuilder4::Constructive => engine.plan_from(
            rt, alloc, book, known, &Construct, by, workers, targets, gate,
        ),
        Rebuilder4::Deep => {
            engine.plan_from(rt, alloc, book, known, &Deep, by, workers, targets, gate)
        }
    }
}

/// What a build by the rebuilder would do where keys wait for what they need.
pub(crate) fn preview(
    alloc: Global,
    rebuilder: Rebuilder4,
    engine: &mut Engine,
    book: &Book,
    targets: &Names,
) -> Result<Work, PlanFault>
    ensures kept { engine.new ≡ engine.old }
    ensures served { Under (any_in engine.old) (book_view book.now)
        (IfOk result (IsPreview (how_of rebuilder) (kept_for (any_in engine.old) (book_view book.now)) (book_view book.now) targets.now)) }
    ensures refused { Under (any_in engine.old) (book_view book.now)
        ((reason : SomeReason) → result ≡ Err (PlanFault.Refused reason) → IsReason (book_view book.now) targets.now reason) }
{
    match rebuilder {
        Rebuilder4::Dirty => engine.preview(alloc, book, &Dirty, targets),
        Rebuilder4::Verifying => engine.preview(alloc, book, &Verify, targets),
        Rebuilder4::Constructive => engine.preview(alloc, book, &Construct, targets),
        Rebuilder4::Deep => engine.preview(alloc, book, &Deep, targets),
    }
}

pub(crate) fn kind_of(rebuilder: Rebuilder4) -> RebuilderKind
    ensures { how_of_kind result ≡ how_of rebuilder }
{
    match rebuilder {
        Rebuilder4::Dirty => RebuilderKind::Dirty,
        Rebuilder4::Verifying => RebuilderKind::Verifying,
        Rebuilder4::Constructive => RebuilderKind::Constructive,
        Rebuilder4::Deep => RebuilderKind::Deep,
    }
}

fn scheduler_of(word: Scheduler4) -> Scheduler
    ensures { result ≡ scheduler_of word }
{
    match word {
        Scheduler4::Topological => Scheduler::Topological,
        Scheduler4::Restarting => Scheduler::Restarting,
        Scheduler4::Suspending => Scheduler::Suspending,
    }
}
