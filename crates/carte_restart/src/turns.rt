ghost use Rattle.std.specs.Prelude.{◌≡◌, ◌∷◌, ◌<◌, ℕ, List, None, true, IfOk, OnOk};
ghost use Rattle.carte_book.specs.Book.{book_view};
ghost use Rattle.carte_book.specs.Needs.{IsRule};
ghost use Rattle.carte_record.specs.Kept.{kept_view};
ghost use Rattle.carte_bench.specs.Held.{spots_of, book_of};
ghost use Rattle.carte_bench.specs.Spots.{AreNamed, is_ready};
ghost use Rattle.carte_progress.specs.Standing.{IsStanding, StaysKnown, turns_left};
ghost use Rattle.carte_restart.specs.Anew.{TurnedAnew};
ghost use Rattle.carte_restart.specs.Going.{GoesOn};
ghost use Rattle.carte_restart.specs.Schedule.{TurnsFirst};
ghost use Rattle.carte_restart.specs.Straight.{EndsNext};

use carte_bench::{Bench, turn_keeps};
use carte_book::Book;
use carte_effect::{Job, Made, Runs, Stuck};
use carte_progress::{finish_made, open_stop, push};
use carte_rebuild::{Rebuilder, Work};
use carte_record::Kept;
use carte_value::{Name, NoMemory};
use std::alloc::Global;
use std::collections::VecDeque;

/// One turn of the first name of a path, which was taken off it. Where that ends, it is finished; else what it waits for
/// goes before it, or the path is dropped.
pub(crate) fn turn<R: Rebuilder>(
    alloc: Global,
    rebuilder: &R,
    kept: &Kept,
    book: &Book,
    bench: &mut Bench<'_, R::Job>,
    work: &mut Work,
    path: &mut VecDeque<Name>,
    name: Name,
) -> Result<(), NoMemory>
    requires book { book_of bench.old ≡ book_view book.now }
    requires standing { IsStanding R.Job.name (book_view book.now) (spots_of bench.old) (name ∷ path.old.items) }
    ensures book { OnOk result (book_of bench.new ≡ book_view book.now) }
    ensures standing { OnOk result (IsStanding R.Job.name (book_view book.now) (spots_of bench.new) path.new.items) }
    ensures fewer { OnOk result (turns_left (book_view book.now) (spots_of bench.new) path.new.items < turns_left (book_view book.now) (spots_of bench.old) (name ∷ path.old.items)) }
    ensures goes { OnOk result ((ts : List (List ℕ)) → GoesOn R.Job.started R.Job.fits (R.begun rebuilder.now (kept_view kept.now) (book_view book.now)) (R.how rebuilder.now) (kept_view kept.now) (book_view book.now) ts (spots_of bench.old) (spots_of bench.new) work.old work.new) }
    ensures known { OnOk result (StaysKnown (spots_of bench.old) (spots_of bench.new)) }
    ensures straight { OnOk result ((ts : List (List ℕ)) → EndsNext R.Job.started R.Job.fits (R.begun rebuilder.now (kept_view kept.now) (book_view book.now)) (R.how rebuilder.now) (kept_view kept.now) (book_view book.now) ts (spots_of bench.old) (spots_of bench.new) work.old work.new (name ∷ path.old.items) path.new.items) }
    ensures turns { OnOk result (TurnsFirst R.Job.name R.Job.started R.Job.gives (λ k j. R.begun rebuilder.now (kept_view kept.now) (book_view book.now) (λ q. None) k j) (R.how rebuilder.now) (book_view book.now) name path.old.items (record { spots = spots_of bench.old; path = (name ∷ path.old.items); finished = work.old.finished; runs = work.old.runs }) (record { spots = spots_of bench.new; path = path.new.items; finished = work.new.finished; runs = work.new.runs })) }
{
    turn_keeps::<R::Job>();
    let came = drive(alloc, rebuilder, kept, book, bench, &mut work.runs, &name)?;
    match came {
        Ok(made) => finish_made(alloc, rebuilder, book, work, made),
        Err(stuck) => {
            push(path, name)?;
            open_stop(alloc, rebuilder, kept, book, bench, path, stuck)
        }
    }
}

// Where the job stops, it is given up for a new one, which waits for the same name: of what it has come to nothing is kept.
fn drive<R: Rebuilder>(
    alloc: Global,
    rebuilder: &R,
    kept: &Kept,
    book: &Book,
    bench: &mut Bench<'_, R::Job>,
    runs: &mut Runs,
    name: &Name,
) -> Result<Result<Made, Stuck>, NoMemory>
    requires rule { IsRule (book_view book.now) name.now }
    requires ready { is_ready (spots_of bench.old) (spots_of bench.old name.now) ≡ true }
    requires named { AreNamed R.Job.name (spots_of bench.old) }
    ensures turned { IfOk result (TurnedAnew R.Job.name R.Job.started R.Job.gives (λ k j. R.begun rebuilder.now (kept_view kept.now) (book_view book.now) (λ q. None) k j) (book_of bench.old) (spots_of bench.old) (spots_of bench.new) runs.old runs.new name.now) }
    ensures book { book_of bench.new ≡ book_of bench.old }
{
    let came = bench.turn_to(alloc, name, runs)?;
    match came {
        Ok(made) => Ok(Ok(made)),
        Err(stuck) => {
            let job = rebuilder.start(alloc, kept, book, name)?;
            bench.renew(job);
            Ok(Err(stuck))
        }
    }
}
