ghost use Rattle.std.specs.Prelude.{◌≡◌, ◌∷◌, ℕ, List, [], None, IfOk, OnOk};
ghost use Rattle.carte_value.specs.Truths.{Among};
ghost use Rattle.carte_book.specs.Book.{book_view};
ghost use Rattle.carte_book.specs.Needs.{IsRule};
ghost use Rattle.carte_record.specs.Kept.{kept_view};
ghost use Rattle.carte_rebuild.specs.Ends.{EndsSuspending, HasTargets};
ghost use Rattle.carte_bench.specs.Held.{spots_of, book_of};
ghost use Rattle.carte_progress.specs.Opening.{Opens};
ghost use Rattle.carte_progress.specs.Standing.{IsStanding, IsDemanded, StaysKnown};
ghost use Rattle.carte_wave.specs.Front.{line_of, AddsFirst};
ghost use Rattle.carte_wave.specs.Standing.{IsLined, AreWanted};
ghost use Rattle.carte_wave.specs.Waves.{DemandsEach, Waves, EndsByWaves};

use crate::Gate;
use crate::front::Front;
use crate::laws::job_laws;
use crate::waves::wave;
use carte_bench::Bench;
use carte_book::Book;
use carte_effect::Digests;
use carte_progress::{first_reason, open};
use carte_rebuild::{Rebuilder, Work, WorkEnd};
use carte_record::Kept;
use carte_value::{Name, Names, NoMemory};
use std::alloc::Global;
use std::collections::VecDeque;
use std::marker::Sync;
use std::thread::Threads;

/// Builds the targets in waves, each of at most so many threads: the keys that can go on are driven over what is done as the
/// wave begins. What it comes to doesn't depend on how many there are. `kept` is what the build begins with, after the marking.
/// Whatever that is, a build that succeeds has finished each target that isn't an input.
pub fn build<R: Rebuilder, G: Gate, T: Threads + Sync>(
    rt: &T,
    alloc: Global,
    rebuilder: &R,
    kept: &Kept,
    book: &Book,
    targets: &Names,
    workers: usize,
    gate: &G,
) -> Result<WorkEnd, NoMemory>
    ensures ends { IfOk result (EndsSuspending (R.how rebuilder.now) (kept_view kept.now) (book_view book.now) targets.now) }
    ensures waves { IfOk result (EndsByWaves R.Job.name R.Job.started R.Job.gives (λ k j. R.begun rebuilder.now (kept_view kept.now) (book_view book.now) (λ q. None) k j) (R.how rebuilder.now) (book_view book.now) targets.now) }
    ensures targets { IfOk result (HasTargets (book_view book.now) targets.now) }
{
    job_laws::<R::Job>();
    let mut bench = Bench::new(alloc, book);
    // Most keys that are kept are finished again. The pages of room that stays empty are never touched.
    let mut work = Work::with_room(alloc, kept.entries.len(), book.hasher())?;
    let mut front = Front::new(alloc, book.hasher());
    demand_all(
        alloc,
        rebuilder,
        kept,
        book,
        &mut bench,
        &mut front,
        targets.as_slice(),
    )?;
    let mut digests = Digests::new(alloc, book.hasher());
    wave_on(
        rt,
        alloc,
        rebuilder,
        kept,
        book,
        &mut bench,
        &mut work,
        &mut front,
        &mut digests,
        workers,
        gate,
    )?;
    match first_reason(alloc, &bench, targets.as_slice())? {
        None => Ok(WorkEnd::All(work)),
        Some(reason) => Ok(WorkEnd::Refused(work, reason)),
    }
}

fn demand_all<R: Rebuilder>(
    alloc: Global,
    rebuilder: &R,
    kept: &Kept,
    book: &Book,
    bench: &mut Bench<'_, R::Job>,
    front: &mut Front,
    targets: &[Name],
) -> Result<(), NoMemory>
    requires book { book_of bench.old ≡ book_view book.now }
    requires lined { IsLined R.Job.name (book_view book.now) (spots_of bench.old) [] (line_of front.old) }
    requires wanted { AreWanted (spots_of bench.old) (line_of front.old) }
    ensures book { OnOk result (book_of bench.new ≡ book_view book.now) }
    ensures lined { OnOk result (IsLined R.Job.name (book_view book.now) (spots_of bench.new) [] (line_of front.new)) }
    ensures wanted { OnOk result (AreWanted (spots_of bench.new) (line_of front.new)) }
    ensures demands { OnOk result (DemandsEach R.Job.name R.Job.started R.Job.gives (λ k j. R.begun rebuilder.now (kept_view kept.now) (book_view book.now) (λ q. None) k j) (R.how rebuilder.now) (book_view book.now) targets.now (spots_of bench.old) (spots_of bench.new)) }
    ensures demanded { OnOk result ((t : List ℕ) → Among targets.now t → IsRule (book_view book.now) t → IsDemanded (spots_of bench.new) t) }
{
    for at in 0..targets.len() {
        demand(alloc, rebuilder, kept, book, bench, front, &targets[at])?;
    }
    Ok(())
}

// Demands a rule that the bench doesn't know, which can go on then.
fn demand<R: Rebuilder>(
    alloc: Global,
    rebuilder: &R,
    kept: &Kept,
    book: &Book,
    bench: &mut Bench<'_, R::Job>,
    front: &mut Front,
    target: &Name,
) -> Result<(), NoMemory>
    requires book { book_of bench.old ≡ book_view book.now }
    ensures book { OnOk result (book_of bench.new ≡ book_view book.now) }
    ensures demands { OnOk result ((path : List (List ℕ)) × Opens R.Job.name R.Job.started (λ k j. R.begun rebuilder.now (kept_view kept.now) (book_view book.now) (λ q. None) k j) (book_view book.now) (spots_of bench.old) (spots_of bench.new) [] path target.now × AddsFirst path (line_of front.old) (line_of front.new)) }
{
    let mut path = VecDeque::new(alloc);
    let name = target.copy(alloc)?;
    open(alloc, rebuilder, kept, book, bench, &mut path, name)?;
    front.add_first(path)
}

// Wave after wave, until no key can go on.
fn wave_on<R: Rebuilder, G: Gate, T: Threads + Sync>(
    rt: &T,
    alloc: Global,
    rebuilder: &R,
    kept: &Kept,
    book: &Book,
    bench: &mut Bench<'_, R::Job>,
    work: &mut Work,
    front: &mut Front,
    digests: &mut Digests,
    workers: usize,
    gate: &G,
) -> Result<(), NoMemory>
    requires book { book_of bench.old ≡ book_view book.now }
    requires lined { IsLined R.Job.name (book_view book.now) (spots_of bench.old) [] (line_of front.old) }
    requires wanted { AreWanted (spots_of bench.old) (line_of front.old) }
    ensures book { OnOk result (book_of bench.new ≡ book_view book.now) }
    ensures standing { OnOk result (IsStanding R.Job.name (book_view book.now) (spots_of bench.new) []) }
    ensures waves { OnOk result (Waves R.Job.name R.Job.started R.Job.gives (λ k j. R.begun rebuilder.now (kept_view kept.now) (book_view book.now) (λ q. None) k j) (R.how rebuilder.now) (book_view book.now) (record { spots = spots_of bench.old; finished = work.old.finished; runs = work.old.runs }) (record { spots = spots_of bench.new; finished = work.new.finished; runs = work.new.runs })) }
    ensures known { OnOk result (StaysKnown (spots_of bench.old) (spots_of bench.new)) }
    ensures chain { OnOk result (work.new.chain ≡ work.old.chain) }
{
    'waves: while front.goes_on() {
        wave(
            rt, alloc, rebuilder, kept, book, bench, work, front, digests, workers, gate,
        )?;
    }
    Ok(())
}
