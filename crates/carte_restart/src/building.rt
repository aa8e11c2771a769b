ghost use Rattle.std.specs.Prelude.{◌≡◌, ◌++◌, ℕ, List, [], None, IfOk, OnOk};
ghost use Rattle.carte_value.specs.Truths.{Among};
ghost use Rattle.carte_book.specs.Book.{book_view};
ghost use Rattle.carte_book.specs.Needs.{IsRule};
ghost use Rattle.carte_record.specs.Kept.{kept_view};
ghost use Rattle.carte_rebuild.specs.Ends.{EndsRestarting, HasTargets};
ghost use Rattle.carte_rebuild.specs.Goes.{AreThere};
ghost use Rattle.carte_bench.specs.Held.{spots_of, book_of};
ghost use Rattle.carte_bench.specs.Spots.{seen_in};
ghost use Rattle.carte_progress.specs.Standing.{IsStanding, IsDemanded, StaysKnown};
ghost use Rattle.carte_restart.specs.Ending.{EndsFrom};
ghost use Rattle.carte_restart.specs.Going.{GoesOn};
ghost use Rattle.carte_restart.specs.Schedule.{EndsByList, EndsByTurns, Treats, TreatsEach};
ghost use Rattle.carte_restart.specs.Straight.{GoesStraight, IsPreparedOn};

use crate::chains::with_chain;
use crate::first::first_list;
use crate::turns::turn;
use carte_bench::{Bench, turn_keeps};
use carte_book::Book;
use carte_progress::{first_reason, open};
use carte_rebuild::{Rebuilder, Work, WorkEnd};
use carte_record::Kept;
use carte_value::{Name, Names, NoMemory};
use std::alloc::Global;
use std::collections::VecDeque;

/// Builds the rules that the targets led to when they were finished last, in that order, and then the targets: a key that
/// asks for a rule without a value is begun anew once that rule has one. `kept` is what the build begins with, after the
/// marking. Whatever that is, a build that succeeds has finished each target that isn't an input.
pub fn build<R: Rebuilder>(
    alloc: Global,
    rebuilder: &R,
    kept: &Kept,
    book: &Book,
    targets: &Names,
) -> Result<WorkEnd, NoMemory>
    ensures ends { IfOk result (EndsRestarting (R.how rebuilder.now) (kept_view kept.now) (book_view book.now) targets.now) }
    ensures turns { IfOk result (EndsByList R.Job.name R.Job.started R.Job.gives (λ k j. R.begun rebuilder.now (kept_view kept.now) (book_view book.now) (λ q. None) k j) (R.how rebuilder.now) (book_view book.now) (kept_view kept.now) targets.now) }
    ensures targets { IfOk result (HasTargets (book_view book.now) targets.now) }
{
    let list = first_list(alloc, kept, book, targets)?;
    build_from(alloc, rebuilder, kept, book, &list, targets)
}

/// Treats the rules of a list, and then the targets.
fn build_from<R: Rebuilder>(
    alloc: Global,
    rebuilder: &R,
    kept: &Kept,
    book: &Book,
    list: &Names,
    targets: &Names,
) -> Result<WorkEnd, NoMemory>
    ensures ends { IfOk result (EndsFrom (R.how rebuilder.now) (kept_view kept.now) (book_view book.now) list.now targets.now) }
    ensures turns { IfOk result (EndsByTurns R.Job.name R.Job.started R.Job.gives (λ k j. R.begun rebuilder.now (kept_view kept.now) (book_view book.now) (λ q. None) k j) (R.how rebuilder.now) (book_view book.now) (list.now ++ targets.now)) }
    ensures targets { IfOk result (HasTargets (book_view book.now) targets.now) }
{
    turn_keeps::<R::Job>();
    let mut bench = Bench::new(alloc, book);
    // Most keys that are kept are finished again. The pages of room that stays empty are never touched.
    let mut work = Work::with_room(alloc, kept.entries.len(), book.hasher())?;
    treat_all(
        alloc,
        rebuilder,
        kept,
        book,
        &mut bench,
        &mut work,
        list.as_slice(),
    )?;
    treat_all(
        alloc,
        rebuilder,
        kept,
        book,
        &mut bench,
        &mut work,
        targets.as_slice(),
    )?;
    match first_reason(alloc, &bench, targets.as_slice())? {
        None => Ok(WorkEnd::All(with_chain(alloc, kept, work)?)),
        Some(reason) => Ok(WorkEnd::Refused(with_chain(alloc, kept, work)?, reason)),
    }
}

fn treat_all<R: Rebuilder>(
    alloc: Global,
    rebuilder: &R,
    kept: &Kept,
    book: &Book,
    bench: &mut Bench<'_, R::Job>,
    work: &mut Work,
    names: &[Name],
) -> Result<(), NoMemory>
    requires book { book_of bench.old ≡ book_view book.now }
    requires standing { IsStanding R.Job.name (book_view book.now) (spots_of bench.old) [] }
    ensures book { OnOk result (book_of bench.new ≡ book_view book.now) }
    ensures standing { OnOk result (IsStanding R.Job.name (book_view book.now) (spots_of bench.new) []) }
    ensures goes { OnOk result ((ts : List (List ℕ)) → ((t : List ℕ) → Among names.now t → Among ts t) → GoesOn R.Job.started R.Job.fits (R.begun rebuilder.now (kept_view kept.now) (book_view book.now)) (R.how rebuilder.now) (kept_view kept.now) (book_view book.now) ts (spots_of bench.old) (spots_of bench.new) work.old work.new) }
    ensures known { OnOk result (StaysKnown (spots_of bench.old) (spots_of bench.new)) }
    ensures demanded { OnOk result ((t : List ℕ) → Among names.now t → IsRule (book_view book.now) t → IsDemanded (spots_of bench.new) t) }
    ensures straight { OnOk result ((ts : List (List ℕ)) → ((t : List ℕ) → Among names.now t → Among ts t) → GoesStraight R.Job.started R.Job.fits (R.begun rebuilder.now (kept_view kept.now) (book_view book.now)) (R.how rebuilder.now) (kept_view kept.now) (book_view book.now) ts (spots_of bench.old) (spots_of bench.new) work.old work.new (IsPreparedOn (book_view book.now) (spots_of bench.old) names.now)) }
    ensures treats { OnOk result (TreatsEach R.Job.name R.Job.started R.Job.gives (λ k j. R.begun rebuilder.now (kept_view kept.now) (book_view book.now) (λ q. None) k j) (R.how rebuilder.now) (book_view book.now) names.now (record { spots = spots_of bench.old; path = []; finished = work.old.finished; runs = work.old.runs }) (record { spots = spots_of bench.new; path = []; finished = work.new.finished; runs = work.new.runs })) }
{
    // One path for all, whose room serves again.
    let mut path = VecDeque::new(alloc);
    for at in 0..names.len() {
        treat(
            alloc, rebuilder, kept, book, bench, work, &mut path, &names[at],
        )?;
    }
    Ok(())
}

/// Demands a name that the bench doesn't know, where it is a rule, and gives turns to what it needs and to it until it is
/// done, or no turn helps. The path is empty before and after.
fn treat<R: Rebuilder>(
    alloc: Global,
    rebuilder: &R,
    kept: &Kept,
    book: &Book,
    bench: &mut Bench<'_, R::Job>,
    work: &mut Work,
    path: &mut VecDeque<Name>,
    target: &Name,
) -> Result<(), NoMemory>
    requires idle { path.old.items ≡ [] }
    requires book { book_of bench.old ≡ book_view book.now }
    requires standing { IsStanding R.Job.name (book_view book.now) (spots_of bench.old) [] }
    ensures idle { OnOk result (path.new.items ≡ []) }
    ensures book { OnOk result (book_of bench.new ≡ book_view book.now) }
    ensures standing { OnOk result (IsStanding R.Job.name (book_view book.now) (spots_of bench.new) []) }
    ensures goes { OnOk result ((ts : List (List ℕ)) → Among ts target.now → GoesOn R.Job.started R.Job.fits (R.begun rebuilder.now (kept_view kept.now) (book_view book.now)) (R.how rebuilder.now) (kept_view kept.now) (book_view book.now) ts (spots_of bench.old) (spots_of bench.new) work.old work.new) }
    ensures known { OnOk result (StaysKnown (spots_of bench.old) (spots_of bench.new)) }
    ensures demanded { OnOk result (IsRule (book_view book.now) target.now → IsDemanded (spots_of bench.new) target.now) }
    ensures straight { OnOk result ((ts : List (List ℕ)) → Among ts target.now → GoesStraight R.Job.started R.Job.fits (R.begun rebuilder.now (kept_view kept.now) (book_view book.now)) (R.how rebuilder.now) (kept_view kept.now) (book_view book.now) ts (spots_of bench.old) (spots_of bench.new) work.old work.new (IsRule (book_view book.now) target.now → AreThere (book_view book.now) (seen_in (book_view book.now) (spots_of bench.old)) target.now)) }
    ensures treats { OnOk result (Treats R.Job.name R.Job.started R.Job.gives (λ k j. R.begun rebuilder.now (kept_view kept.now) (book_view book.now) (λ q. None) k j) (R.how rebuilder.now) (book_view book.now) target.now (record { spots = spots_of bench.old; path = []; finished = work.old.finished; runs = work.old.runs }) (record { spots = spots_of bench.new; path = []; finished = work.new.finished; runs = work.new.runs })) }
{
    let name = target.copy(alloc)?;
    open(alloc, rebuilder, kept, book, bench, path, name)?;
    'turns: while let Some(name) = path.pop_front() {
        turn(alloc, rebuilder, kept, book, bench, work, path, name)?;
    }
    Ok(())
}
