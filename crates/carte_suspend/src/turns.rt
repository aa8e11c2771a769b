ghost use Rattle.std.specs.Prelude.{◌≡◌, ◌∷◌, ◌<◌, ℕ, List, IfOk, OnOk};
ghost use Rattle.carte_book.specs.Book.{book_view};
ghost use Rattle.carte_record.specs.Kept.{kept_view};
ghost use Rattle.carte_bench.specs.Held.{spots_of, book_of};
ghost use Rattle.carte_suspend.specs.Going.{GoesOn};
ghost use Rattle.carte_progress.specs.Progress.{StaysDone};
ghost use Rattle.carte_progress.specs.Standing.{IsStanding, StaysKnown, turns_left};

use carte_bench::{Bench, turn_keeps};
use carte_book::Book;
use carte_effect::Job;
use carte_progress::{finish_made, open_stop, push};
use carte_rebuild::{Rebuilder, Work};
use carte_record::Kept;
use carte_value::{Name, NoMemory};
use std::alloc::Global;
use std::collections::VecDeque;

/// One turn of the first name of a path, which was taken off it. Where that ends, it is finished; else what it waits for
/// goes before it, or the path is dropped.
pub(crate) fn turn<R: Rebuilder>(
    alloc: Global,
    rebuilder: &R,
    kept: &Kept,
    book: &Book,
    bench: &mut Bench<'_, R::Job>,
    work: &mut Work,
    path: &mut VecDeque<Name>,
    name: Name,
) -> Result<(), NoMemory>
    requires book { book_of bench.old ≡ book_view book.now }
    requires standing { IsStanding R.Job.name (book_view book.now) (spots_of bench.old) (name ∷ path.old.items) }
    ensures book { OnOk result (book_of bench.new ≡ book_view book.now) }
    ensures standing { OnOk result (IsStanding R.Job.name (book_view book.now) (spots_of bench.new) path.new.items) }
    ensures fewer { OnOk result (turns_left (book_view book.now) (spots_of bench.new) path.new.items < turns_left (book_view book.now) (spots_of bench.old) (name ∷ path.old.items)) }
    ensures goes { OnOk result ((ts : List (List ℕ)) → GoesOn R.Job.started R.Job.fits (R.begun rebuilder.now (kept_view kept.now) (book_view book.now)) (R.how rebuilder.now) (kept_view kept.now) (book_view book.now) ts (spots_of bench.old) (spots_of bench.new) work.old work.new) }
    ensures done { OnOk result (StaysDone R.Job.keyed (spots_of bench.old) (spots_of bench.new) work.old work.new) }
    ensures known { OnOk result (StaysKnown (spots_of bench.old) (spots_of bench.new)) }
    ensures chain { OnOk result (work.new.chain ≡ work.old.chain) }
{
    turn_keeps::<R::Job>();
    let came = bench.turn_to(alloc, &name, &mut work.runs)?;
    match came {
        Ok(made) => finish_made(alloc, rebuilder, book, work, made),
        Err(stuck) => {
            push(path, name)?;
            open_stop(alloc, rebuilder, kept, book, bench, path, stuck)
        }
    }
}
