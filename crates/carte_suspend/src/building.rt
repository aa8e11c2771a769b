ghost use Rattle.std.specs.Prelude.{◌≡◌, ℕ, List, [], ◌∷◌, ◌<◌, length, IfOk, OnOk};
ghost use Rattle.carte_value.specs.Truths.{Among};
ghost use Rattle.carte_book.specs.Book.{book_view};
ghost use Rattle.carte_book.specs.Needs.{IsRule};
ghost use Rattle.carte_record.specs.Kept.{kept_view};
ghost use Rattle.carte_rebuild.specs.Ends.{EndsSuspending, HasTargets};
ghost use Rattle.carte_bench.specs.Held.{spots_of, book_of};
ghost use Rattle.carte_suspend.specs.Going.{GoesOn};
ghost use Rattle.carte_progress.specs.Progress.{StaysDone};
ghost use Rattle.carte_progress.specs.Standing.{IsStanding, IsDemanded, StaysKnown};

use crate::turns::turn;
use carte_bench::Bench;
use carte_book::Book;
use carte_progress::{first_reason, open};
use carte_rebuild::{Rebuilder, Work, WorkEnd};
use carte_record::Kept;
use carte_value::{Name, Names, NoMemory};
use std::alloc::Global;
use std::collections::VecDeque;

/// Builds the targets, one after another: a key that asks for a rule without a value waits until that rule has one.
/// `kept` is what the build begins with, after the marking. Whatever that is, a build that succeeds has finished each
/// target that isn't an input.
pub fn build<R: Rebuilder>(
    alloc: Global,
    rebuilder: &R,
    kept: &Kept,
    book: &Book,
    targets: &Names,
) -> Result<WorkEnd, NoMemory>
    ensures ends { IfOk result (EndsSuspending (R.how rebuilder.now) (kept_view kept.now) (book_view book.now) targets.now) }
    ensures targets { IfOk result (HasTargets (book_view book.now) targets.now) }
{
    let mut bench = Bench::new(alloc, book);
    // Most keys that are kept are finished again. The pages of room that stays empty are never touched.
    let mut work = Work::with_room(alloc, kept.entries.len(), book.hasher())?;
    treat_all(
        alloc,
        rebuilder,
        kept,
        book,
        &mut bench,
        &mut work,
        targets.as_slice(),
    )?;
    match first_reason(alloc, &bench, targets.as_slice())? {
        None => Ok(WorkEnd::All(work)),
        Some(reason) => Ok(WorkEnd::Refused(work, reason)),
    }
}

fn treat_all<R: Rebuilder>(
    alloc: Global,
    rebuilder: &R,
    kept: &Kept,
    book: &Book,
    bench: &mut Bench<'_, R::Job>,
    work: &mut Work,
    targets: &[Name],
) -> Result<(), NoMemory>
    requires book { book_of bench.old ≡ book_view book.now }
    requires standing { IsStanding R.Job.name (book_view book.now) (spots_of bench.old) [] }
    ensures book { OnOk result (book_of bench.new ≡ book_view book.now) }
    ensures standing { OnOk result (IsStanding R.Job.name (book_view book.now) (spots_of bench.new) []) }
    ensures goes { OnOk result (GoesOn R.Job.started R.Job.fits (R.begun rebuilder.now (kept_view kept.now) (book_view book.now)) (R.how rebuilder.now) (kept_view kept.now) (book_view book.now) targets.now (spots_of bench.old) (spots_of bench.new) work.old work.new) }
    ensures done { OnOk result (StaysDone R.Job.keyed (spots_of bench.old) (spots_of bench.new) work.old work.new) }
    ensures demanded { OnOk result ((t : List ℕ) → Among targets.now t → IsRule (book_view book.now) t → IsDemanded (spots_of bench.new) t) }
    ensures chain { OnOk result (work.new.chain ≡ work.old.chain) }
{
    for at in 0..targets.len() {
        treat(alloc, rebuilder, kept, book, bench, work, &targets[at])?;
    }
    Ok(())
}

/// Demands a target that the bench doesn't know, and gives turns to what it needs and to it until it is done, or no turn
/// helps.
fn treat<R: Rebuilder>(
    alloc: Global,
    rebuilder: &R,
    kept: &Kept,
    book: &Book,
    bench: &mut Bench<'_, R::Job>,
    work: &mut Work,
    target: &Name,
) -> Result<(), NoMemory>
    requires book { book_of bench.old ≡ book_view book.now }
    requires standing { IsStanding R.Job.name (book_view book.now) (spots_of bench.old) [] }
    ensures book { OnOk result (book_of bench.new ≡ book_view book.now) }
    ensures standing { OnOk result (IsStanding R.Job.name (book_view book.now) (spots_of bench.new) []) }
    ensures goes { OnOk result ((ts : List (List ℕ)) → Among ts target.now → GoesOn R.Job.started R.Job.fits (R.begun rebuilder.now (kept_view kept.now) (book_view book.now)) (R.how rebuilder.now) (kept_view kept.now) (book_view book.now) ts (spots_of bench.old) (spots_of bench.new) work.old work.new) }
    ensures known { OnOk result (StaysKnown (spots_of bench.old) (spots_of bench.new)) }
    ensures done { OnOk result (StaysDone R.Job.keyed (spots_of bench.old) (spots_of bench.new) work.old work.new) }
    ensures demanded { OnOk result (IsRule (book_view book.now) target.now → IsDemanded (spots_of bench.new) target.now) }
    ensures chain { OnOk result (work.new.chain ≡ work.old.chain) }
{
    let mut path = VecDeque::new(alloc);
    let name = target.copy(alloc)?;
    open(alloc, rebuilder, kept, book, bench, &mut path, name)?;
    'turns: while let Some(name) = path.pop_front() {
        turn(alloc, rebuilder, kept, book, bench, work, &mut path, name)?;
    }
    Ok(())
}
