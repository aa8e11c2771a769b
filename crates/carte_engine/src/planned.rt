// From the end of a build to its plan.
ghost use Rattle.std.specs.Prelude.{◌≡◌, ◌∷◌, None, IfOk};
ghost use Rattle.carte_book.specs.Book.{book_view};
ghost use Rattle.carte_codec.specs.Each.{EachFits};
ghost use Rattle.carte_mark.specs.Bases.{BeginsWith, beginning_of};
ghost use Rattle.carte_record.specs.Bodies.{IsUnmarked};
ghost use Rattle.carte_record.specs.Kept.{SomeKept, kept_view};
ghost use Rattle.carte_record.specs.declared.batch.Batch.{Batch as SomeBatch};
ghost use Rattle.carte_record_one.specs.Kept.{kept_one_view};
ghost use Rattle.carte_state.specs.Runs.{AreUnmarked};
ghost use Rattle.carte_state.specs.States.{any_in};
ghost use Rattle.carte_state.specs.Versions.{InTwo};
ghost use Rattle.carte_engine.specs.declared.scheduler.Scheduler.{Scheduler as SomeScheduler};
ghost use Rattle.carte_engine.specs.Answers.{IsPlan};
ghost use Rattle.carte_engine.specs.Versions.{IsUp, Raises, Under};
ghost use Rattle.carte_plan.specs.Cuts.{AllUnmarked};
ghost use Rattle.carte_rebuild.specs.Ends.{HasTargets};
ghost use Rattle.carte_engine.specs.Reckoned.{EndsBy, AreBatchesOf, ShowsEnd};
ghost use Rattle.carte_engine.specs.Shown.{IsEnd, ShowsBuild};

use crate::reckon::reckon;
use crate::{Answer, Plan, Scheduler};
use carte_book::Book;
use carte_mark::Begun;
use carte_migrate::up;
use carte_plan::{plan_parts, plan_parts_chained};
use carte_rebuild::{Rebuilder, Work, WorkEnd};
use carte_record::{Batch, Kept};
use carte_record_one::KeptOne;
use carte_state::State;
use carte_value::{Names, NoMemory};
use carte_wave::Gate;
use std::alloc::Global;
use std::marker::Sync;
use std::thread::Threads;

/// So many names are looked up in a list of finished keys without an index of it.
const FEW: usize = 16;

/// The keys of so many tasks that ran are sorted rather than looked up in an index of all that was finished.
const MANY_RUNS: u64 = 1024;

/// The plan of a build that begins so, over what it begins with.
pub(crate) fn plan_over<R: Rebuilder, G: Gate, T: Threads + Sync>(
    rt: &T,
    alloc: Global,
    rebuilder: &R,
    begun: &Begun,
    base: &Kept,
    book: &Book,
    scheduler: Scheduler,
    workers: usize,
    targets: &Names,
    gate: &G,
) -> Result<Plan, NoMemory>
    ensures unmarked { IfOk result (λ p. AreUnmarked p.batches.items) }
    ensures plans { let h = R.how rebuilder.now in let b = book_view book.now in (K : SomeKept) → BeginsWith K b begun.now (kept_view base.now)
        → Under (InTwo K) b (IfOk result (λ p. IsPlan scheduler h (InTwo K) b targets.now p.batches.items p.answer)) }
    ensures shows { (K : SomeKept) → BeginsWith K (book_view book.now) begun.now (kept_view base.now)
        → IfOk result (λ p. ShowsBuild R.Job.name R.Job.started R.Job.gives (λ M k j. R.begun rebuilder.now M (book_view book.now) (λ q. None) k j) (R.how rebuilder.now) (book_view book.now) targets.now scheduler workers K p.answer) }
{
    let end = run(
        rt, alloc, rebuilder, begun, base, book, scheduler, workers, targets, gate,
    )?;
    planned(rt, alloc, rebuilder, begun, base, book, targets, end)
}

// The build that the scheduler makes, with an index of its finished keys where many of them are looked up.
fn run<R: Rebuilder, G: Gate, T: Threads + Sync>(
    rt: &T,
    alloc: Global,
    rebuilder: &R,
    begun: &Begun,
    kept: &Kept,
    book: &Book,
    scheduler: Scheduler,
    workers: usize,
    targets: &Names,
    gate: &G,
) -> Result<WorkEnd, NoMemory>
    ensures { IfOk result (IsEnd R.Job.name R.Job.started R.Job.gives (λ M k j. R.begun rebuilder.now M (book_view book.now) (λ q. None) k j) (R.how rebuilder.now) (book_view book.now) targets.now scheduler workers (kept_view kept.now)) }
{
    let end = run_bare(
        rt, alloc, rebuilder, kept, book, scheduler, workers, targets, gate,
    )?;
    if looks_up(begun, targets, &end) {
        return end.indexed();
    }
    Ok(end)
}

// Whether many finished keys are looked up behind a build: each target is, each mark is among the first part's keys, and
// where many tasks ran, it is asked whether one ran twice.
fn looks_up(begun: &Begun, targets: &Names, end: &WorkEnd) -> bool {
    let (count, started) = finished_and_started(end);
    targets.len() > FEW || begun.marks.len() > count / FEW || started > MANY_RUNS
}

fn finished_and_started(end: &WorkEnd) -> (usize, u64) {
    match end {
        WorkEnd::All(work) => (work.finished.len(), work.runs.started()),
        WorkEnd::Refused(work, _) => (work.finished.len(), work.runs.started()),
    }
}

// Where one that suspends has several workers, it goes in waves.
fn run_bare<R: Rebuilder, G: Gate, T: Threads + Sync>(
    rt: &T,
    alloc: Global,
    rebuilder: &R,
    kept: &Kept,
    book: &Book,
    scheduler: Scheduler,
    workers: usize,
    targets: &Names,
    gate: &G,
) -> Result<WorkEnd, NoMemory>
    ensures { IfOk result (IsEnd R.Job.name R.Job.started R.Job.gives (λ M k j. R.begun rebuilder.now M (book_view book.now) (λ q. None) k j) (R.how rebuilder.now) (book_view book.now) targets.now scheduler workers (kept_view kept.now)) }
{
    match scheduler {
        Scheduler::Topological => carte_topo::build(alloc, rebuilder, kept, book, targets),
        Scheduler::Restarting => carte_restart::build(alloc, rebuilder, kept, book, targets),
        Scheduler::Suspending if workers > 1 => {
            carte_wave::build(rt, alloc, rebuilder, kept, book, targets, workers, gate)
        }
        Scheduler::Suspending => carte_suspend::build(alloc, rebuilder, kept, book, targets),
    }
}

// The plan of a build that came to such an end.
fn planned<R: Rebuilder, T: Threads>(
    rt: &T,
    alloc: Global,
    rebuilder: &R,
    begun: &Begun,
    base: &Kept,
    book: &Book,
    targets: &Names,
    end: WorkEnd,
) -> Result<Plan, NoMemory>
    requires { HasTargets (book_view book.now) targets.now end }
    ensures unmarked { IfOk result (λ p. AreUnmarked p.batches.items) }
    ensures plans { let h = R.how rebuilder.now in let b = book_view book.now in (s : SomeScheduler) (K : SomeKept) → BeginsWith K b begun.now (kept_view base.now)
        → EndsBy s h (kept_view base.now) b targets.now end → Under (InTwo K) b (IfOk result (λ p. IsPlan s h (InTwo K) b targets.now p.batches.items p.answer)) }
    ensures shows { IfOk result (λ p. ShowsEnd (book_view book.now) targets.now end p.answer) }
{
    match end {
        WorkEnd::All(work) => {
            let batches = batches_of(rt, alloc, rebuilder, begun, base, book, &work)?;
            let built = reckon(alloc, book, targets, work)?;
            Ok(Plan {
                batches,
                answer: Answer::Built(built),
            })
        }
        WorkEnd::Refused(work, reason) => {
            let batches = batches_of(rt, alloc, rebuilder, begun, base, book, &work)?;
            Ok(Plan {
                batches,
                answer: Answer::Refused(reason, work.runs),
            })
        }
    }
}

// The batches of the work, with its new chain where it has one.
fn batches_of<R: Rebuilder, T: Threads>(
    rt: &T,
    alloc: Global,
    rebuilder: &R,
    begun: &Begun,
    base: &Kept,
    book: &Book,
    work: &Work,
) -> Result<Vec<Batch>, NoMemory>
    ensures unmarked { IfOk result (λ batches. AllUnmarked batches.items) }
    ensures brings { let h = R.how rebuilder.now in let b = book_view book.now in let M = kept_view base.now in (K : SomeKept) → BeginsWith K b begun.now M
        → IfOk result (λ batches. AreBatchesOf h K M b (beginning_of begun.now) work.now batches.items) }
{
    let finished = &work.finished;
    match &work.chain {
        Some(chain) => plan_parts_chained(rt, alloc, rebuilder, begun, base, book, finished, chain),
        None => plan_parts(rt, alloc, rebuilder, begun, base, book, finished),
    }
}

/// The plan of a build over what is kept, from that over what the build finds: of version 1 the batch that makes version 2
/// of it comes first.
pub(crate) fn raising(
    alloc: Global,
    state: &State,
    book: &Book,
    plan: Plan,
) -> Result<Plan, NoMemory>
    ensures raises { IfOk result (Raises (any_in state.now) (book_view book.now) plan) }
    ensures unmarked { AreUnmarked plan.batches.items → IfOk result (λ raised. AreUnmarked raised.batches.items) }
{
    match state.old() {
        Some(old) => behind_up(alloc, old, book, plan),
        None => Ok(plan),
    }
}

fn behind_up(alloc: Global, old: &KeptOne, book: &Book, plan: Plan) -> Result<Plan, NoMemory>
    ensures raises { IfOk result (λ raised. (raised.answer ≡ plan.answer)
        × ((first : SomeBatch) × IsUp (kept_one_view old.now) (book_view book.now) first × EachFits IsUnmarked first.entries × (raised.batches.items ≡ first ∷ plan.batches.items))) }
{
    let Plan {
        mut batches,
        answer,
    } = plan;
    batches.insert(0, up(alloc, old, book)?)?;
    Ok(Plan { batches, answer })
}
