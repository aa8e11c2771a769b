ghost use Rattle.std.specs.Prelude.{◌≡◌, ◌<◌, ◌∷◌, ℕ, List, None, Some, IfOk, OnOk};
ghost use Rattle.carte_book.specs.Book.{book_view};
ghost use Rattle.carte_record.specs.Kept.{kept_view};
ghost use Rattle.carte_bench.specs.Held.{spots_of, book_of};
ghost use Rattle.carte_bench.specs.Spots.{is_done};
ghost use Rattle.carte_bench.specs.declared.slot.Slot.TheVariants.{Out};
ghost use Rattle.carte_bench.specs.Turns.{halted};
ghost use Rattle.carte_progress.specs.Opening.{IsStopIn};
ghost use Rattle.carte_wave.specs.Front.{line_of};
ghost use Rattle.carte_wave.specs.Settling.{AreBack, StopsIn, Registers, Follows, Settles, SettlesEach};

use crate::Driven;
use crate::front::Front;
use carte_bench::{Bench, Place};
use carte_book::Book;
use carte_effect::{Halt, Job, Made, Stuck};
use carte_progress::{finish_made, open_stop};
use carte_rebuild::{Rebuilder, Work};
use carte_record::Kept;
use carte_value::{Name, NoMemory};
use std::alloc::Global;
use std::collections::VecDeque;

/// Puts the jobs of a wave back in their order, each with what it came to.
pub(crate) fn settle_all<R: Rebuilder>(
    alloc: Global,
    rebuilder: &R,
    kept: &Kept,
    book: &Book,
    bench: &mut Bench<'_, R::Job>,
    work: &mut Work,
    front: &mut Front,
    mut driven: VecDeque<Driven<R::Job>>,
) -> Result<(), NoMemory>
    requires book { book_of bench.old ≡ book_view book.now }
    requires back { AreBack R.Job.name (book_view book.now) (spots_of bench.old) driven.items }
    ensures settles { OnOk result (SettlesEach R.Job.name R.Job.started (λ k j. R.begun rebuilder.now (kept_view kept.now) (book_view book.now) (λ q. None) k j) (R.how rebuilder.now) (book_view book.now) driven.items (spots_of bench.old) (spots_of bench.new) (line_of front.old) (line_of front.new) work.old.finished work.new.finished) }
    ensures book { OnOk result (book_of bench.new ≡ book_view book.now) }
    ensures runs { OnOk result (work.new.runs ≡ work.old.runs) }
    ensures chain { OnOk result (work.new.chain ≡ work.old.chain) }
{
    'jobs: while let Some(one) = driven.pop_front() {
        settle(alloc, rebuilder, kept, book, bench, work, front, one)?;
    }
    Ok(())
}

/// Puts a job back. What it made is finished, and wakes those that wait for it; the rule at which it stopped is demanded,
/// where it is a new one.
fn settle<R: Rebuilder>(
    alloc: Global,
    rebuilder: &R,
    kept: &Kept,
    book: &Book,
    bench: &mut Bench<'_, R::Job>,
    work: &mut Work,
    front: &mut Front,
    driven: Driven<R::Job>,
) -> Result<(), NoMemory>
    requires book { book_of bench.old ≡ book_view book.now }
    requires out { spots_of bench.old (R.Job.name driven.job) ≡ Some Out }
    requires stop { StopsIn (book_view book.now) driven.outcome }
    ensures settles { OnOk result (Settles R.Job.name R.Job.started (λ k j. R.begun rebuilder.now (kept_view kept.now) (book_view book.now) (λ q. None) k j) (R.how rebuilder.now) (book_view book.now) driven (spots_of bench.old) (spots_of bench.new) (line_of front.old) (line_of front.new) work.old.finished work.new.finished) }
    ensures book { OnOk result (book_of bench.new ≡ book_view book.now) }
    ensures runs { OnOk result (work.new.runs ≡ work.old.runs) }
    ensures chain { OnOk result (work.new.chain ≡ work.old.chain) }
{
    let Driven { job, outcome } = driven;
    let key = job.key().copy(alloc)?;
    match came_to(outcome)? {
        Ok(made) => {
            let copy = made.copy()?;
            bench.put_back(job, Ok(copy));
            finish_made(alloc, rebuilder, book, work, made)?;
            front.wake(alloc, &key)
        }
        Err(stuck) => {
            let copy = copied(alloc, &stuck)?;
            bench.put_back(job, Err(copy));
            follow(alloc, rebuilder, kept, book, bench, front, key, stuck)
        }
    }
}

// What a drive came to, where it had memory.
fn came_to(outcome: Result<Made, Halt<Stuck>>) -> Result<Result<Made, Stuck>, NoMemory>
    ensures { IfOk result (λ came. outcome ≡ halted came) }
{
    match outcome {
        Ok(made) => Ok(Ok(made)),
        Err(halt) => match halt {
            Halt::Stop(stuck) => Ok(Err(stuck)),
            Halt::NoMemory => Err(NoMemory),
        },
    }
}

fn copied(alloc: Global, stuck: &Stuck) -> Result<Stuck, NoMemory>
    ensures { IfOk result (λ copy. copy ≡ stuck.now) }
{
    Ok(match stuck {
        Stuck::NotDone(name) => Stuck::NotDone(name.copy(alloc)?),
        Stuck::Missing(name) => Stuck::Missing(name.copy(alloc)?),
    })
}

// A key has stopped here: it waits, or it can go on at once, and what it waits for is demanded.
fn follow<R: Rebuilder>(
    alloc: Global,
    rebuilder: &R,
    kept: &Kept,
    book: &Book,
    bench: &mut Bench<'_, R::Job>,
    front: &mut Front,
    key: Name,
    stuck: Stuck,
) -> Result<(), NoMemory>
    requires book { book_of bench.old ≡ book_view book.now }
    requires stop { IsStopIn (book_view book.now) stuck }
    ensures follows { OnOk result (Follows R.Job.name R.Job.started (λ k j. R.begun rebuilder.now (kept_view kept.now) (book_view book.now) (λ q. None) k j) (R.how rebuilder.now) (book_view book.now) (spots_of bench.old) (spots_of bench.new) stuck key (line_of front.old) (line_of front.new)) }
    ensures book { OnOk result (book_of bench.new ≡ book_view book.now) }
{
    register(alloc, bench, front, key, &stuck)?;
    let mut path = VecDeque::new(alloc);
    open_stop(alloc, rebuilder, kept, book, bench, &mut path, stuck)?;
    front.add_first(path)
}

fn register<J: Job + Drop>(
    alloc: Global,
    bench: &Bench<'_, J>,
    front: &mut Front,
    key: Name,
    stuck: &Stuck,
) -> Result<(), NoMemory>
    ensures { OnOk result (Registers (spots_of bench.now) stuck.now key (line_of front.old) (line_of front.new)) }
{
    match stuck {
        Stuck::Missing(_) => Ok(()),
        Stuck::NotDone(name) => {
            if has_value(alloc, bench, name)? {
                front.add(key)
            } else {
                front.wait(alloc, name, key)
            }
        }
    }
}

fn has_value<J: Job + Drop>(
    alloc: Global,
    bench: &Bench<'_, J>,
    name: &Name,
) -> Result<bool, NoMemory>
    ensures { IfOk result (λ done. done ≡ is_done (spots_of bench.now name.now)) }
{
    Ok(matches!(bench.place(alloc, name)?, Place::Done))
}
