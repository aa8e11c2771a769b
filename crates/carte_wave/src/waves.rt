ghost use Rattle.std.specs.Prelude.{◌≡◌, ◌<◌, ◌∷◌, ℕ, List, [], None, Some, true, IfOk, OnOk, length};
ghost use Rattle.carte_effect.specs.Ledger.{no_runs};
ghost use Rattle.carte_value.specs.Truths.{Among, NoneTwice};
ghost use Rattle.carte_book.specs.Book.{book_view};
ghost use Rattle.carte_record.specs.Kept.{kept_view};
ghost use Rattle.carte_bench.specs.Held.{spots_of, book_of};
ghost use Rattle.carte_bench.specs.Spots.{is_ready, sight_in};
ghost use Rattle.carte_progress.specs.Standing.{StaysKnown};
ghost use Rattle.carte_wave.specs.Drives.{DroveAll};
ghost use Rattle.carte_wave.specs.Front.{line_of};
ghost use Rattle.carte_wave.specs.Settling.{AreOut, AreJobs, TakesOne};
ghost use Rattle.carte_wave.specs.Standing.{IsLined, AreWanted, waves_left};
ghost use Rattle.carte_wave.specs.Waves.{IsWave};

use crate::front::Front;
use crate::parts::drive_jobs;
use crate::running::part_count;
use crate::settle::settle_all;
use crate::{Gate, Jobs, Wave, run_wave};
use carte_bench::Bench;
use carte_book::Book;
use carte_effect::{Digests, Job};
use carte_rebuild::{Rebuilder, Work};
use carte_record::Kept;
use carte_value::{Name, NoMemory, Seeded};
use std::alloc::Global;
use std::collections::{BTreeSet, VecDeque};
use std::marker::{Send, Sync};
use std::thread::Threads;

/// One wave: the keys that can go on are driven over what is done by now, and put back in name order.
pub(crate) fn wave<R: Rebuilder, G: Gate, T: Threads + Sync>(
    rt: &T,
    alloc: Global,
    rebuilder: &R,
    kept: &Kept,
    book: &Book,
    bench: &mut Bench<'_, R::Job>,
    work: &mut Work,
    front: &mut Front,
    digests: &mut Digests,
    workers: usize,
    gate: &G,
) -> Result<(), NoMemory>
    requires book { book_of bench.old ≡ book_view book.now }
    requires lined { IsLined R.Job.name (book_view book.now) (spots_of bench.old) [] (line_of front.old) }
    requires wanted { AreWanted (spots_of bench.old) (line_of front.old) }
    ensures book { OnOk result (book_of bench.new ≡ book_view book.now) }
    ensures lined { OnOk result (IsLined R.Job.name (book_view book.now) (spots_of bench.new) [] (line_of front.new)) }
    ensures wanted { OnOk result (AreWanted (spots_of bench.new) (line_of front.new)) }
    ensures fewer { OnOk result (0 < length front.old.ready.keys → waves_left (book_view book.now) (spots_of bench.new) front.new.ready.keys < waves_left (book_view book.now) (spots_of bench.old) front.old.ready.keys) }
    ensures known { OnOk result (StaysKnown (spots_of bench.old) (spots_of bench.new)) }
    ensures wave { OnOk result (IsWave R.Job.name R.Job.started R.Job.gives (λ k j. R.begun rebuilder.now (kept_view kept.now) (book_view book.now) (λ q. None) k j) (R.how rebuilder.now) (book_view book.now) (record { spots = spots_of bench.old; finished = work.old.finished; runs = work.old.runs }) (record { spots = spots_of bench.new; finished = work.new.finished; runs = work.new.runs })) }
    ensures chain { OnOk result (work.new.chain ≡ work.old.chain) }
{
    let keys = front.take(alloc);
    let jobs = take_all(alloc, bench, keys)?;
    let came = drive_all(
        rt,
        alloc,
        jobs,
        bench,
        book.hasher(),
        digests,
        workers,
        gate,
    )?;
    let Wave { driven, runs } = came;
    work.runs.append(runs)?;
    settle_all(alloc, rebuilder, kept, book, bench, work, front, driven)
}

// Takes the jobs of keys that can go on, in their order.
fn take_all<J: Job + Drop>(
    alloc: Global,
    bench: &mut Bench<'_, J>,
    mut keys: BTreeSet<Name>,
) -> Result<Jobs<J>, NoMemory>
    requires ready { (k : List ℕ) → Among keys.keys k → is_ready (spots_of bench.old) (spots_of bench.old k) ≡ true }
    requires once { NoneTwice keys.keys }
    ensures jobs { IfOk result (λ jobs. AreJobs (spots_of bench.old) keys.keys jobs.items) }
    ensures out { OnOk result (AreOut (spots_of bench.old) (spots_of bench.new) keys.keys) }
    ensures book { book_of bench.new ≡ book_of bench.old }
{
    let mut jobs = VecDeque::new(alloc);
    'keys: while let Some(key) = keys.pop_first() {
        take_one(bench, &key, &mut jobs)?;
    }
    Ok(jobs)
}

fn take_one<J: Job + Drop>(
    bench: &mut Bench<'_, J>,
    key: &Name,
    jobs: &mut Jobs<J>,
) -> Result<(), NoMemory>
    ensures takes { OnOk result (TakesOne (spots_of bench.old) (spots_of bench.new) key.now jobs.old.items jobs.new.items) }
    ensures book { book_of bench.new ≡ book_of bench.old }
{
    match bench.take(key) {
        Some(job) => {
            jobs.push_back(job)?;
            Ok(())
        }
        None => Ok(()),
    }
}

// Drives jobs over a bench, each once. Where they are one part, no thread is started, and digests of earlier waves are at hand.
fn drive_all<J: Job + Drop + Send + Sync, G: Gate, T: Threads + Sync>(
    rt: &T,
    alloc: Global,
    jobs: Jobs<J>,
    bench: &Bench<'_, J>,
    hasher: Seeded,
    digests: &mut Digests,
    workers: usize,
    gate: &G,
) -> Result<Wave<J>, NoMemory>
    ensures { IfOk result (λ w. DroveAll J.name J.started J.gives (sight_in (book_of bench.now) (spots_of bench.now)) jobs.items w.driven.items no_runs w.runs) }
{
    if part_count(jobs.len(), workers, gate.wants_all()) == 1 {
        return drive_jobs(alloc, 0, jobs, bench, digests, gate);
    }
    run_wave(rt, alloc, jobs, bench, hasher, workers, gate)
}
