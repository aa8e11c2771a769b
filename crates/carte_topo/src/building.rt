ghost use Rattle.std.specs.Prelude.{◌≡◌, ◌+◌, ◌++◌, ◌∷◌, [], None, length, IfOk, OnOk};
ghost use Rattle.carte_value.specs.Truths.{NoneTwice};
ghost use Rattle.carte_book.specs.Book.{book_view};
ghost use Rattle.carte_book.specs.Needs.{IsRule};
ghost use Rattle.carte_record.specs.Kept.{kept_view};
ghost use Rattle.carte_note.specs.Right.{keys_in};
ghost use Rattle.carte_bench.specs.Held.{spots_of, book_of};
ghost use Rattle.carte_rebuild.specs.Ends.{EndsInOrder, HasTargets};
ghost use Rattle.carte_topo.specs.Orders.{InOrder};
ghost use Rattle.carte_topo.specs.Building.{Treats, Advances, HaveNoJobs, OthersStay, FinishesAll};
ghost use Rattle.carte_topo.specs.declared.building.Fault.TheVariants.{NoMemory as FaultNoMemory};

use crate::plan::order;
use carte_bench::Bench;
use carte_book::Book;
use carte_rebuild::{PlanFault, Rebuilder, Work, WorkEnd, finish};
use carte_record::Kept;
use carte_value::{Name, Names, NoMemory};
use std::alloc::Global;

/// Why the rules of an order weren't all treated: the job of one stopped, or there was no memory.
#[derive(Drop)]
pub(crate) enum Fault {
    Stopped,
    NoMemory,
}

impl From<NoMemory> for Fault {
    ghost from_gives = { λ _ e. e ≡ FaultNoMemory };

    fn from(_: NoMemory) -> Fault {
        Fault::NoMemory
    }
}

/// Builds the targets, each rule behind those that it refers to. It is refused by `order` alone, before any run.
/// `kept` is what the build begins with, after the marking. Whatever that is, an end without a refusal has finished as many
/// keys as there are rules to work out, and each target that isn't an input.
pub fn build<R: Rebuilder>(
    alloc: Global,
    rebuilder: &R,
    kept: &Kept,
    book: &Book,
    targets: &Names,
) -> Result<WorkEnd, NoMemory>
    ensures ends { IfOk result (EndsInOrder (R.how rebuilder.now) (kept_view kept.now) (book_view book.now) targets.now) }
    ensures all { IfOk result (FinishesAll (book_view book.now) targets.now) }
    ensures targets { IfOk result (HasTargets (book_view book.now) targets.now) }
{
    match order(alloc, book, targets) {
        Ok(names) => match treat_all(alloc, rebuilder, kept, book, names.as_slice()) {
            Ok(work) => Ok(WorkEnd::All(work)),
            // A job stops though each rule before it is done: so what is kept is of no history of the book, and nothing is
            // known of the job. No end of a build says that, and of all answers want of memory alone claims nothing.
            Err(Fault::Stopped) => Err(NoMemory),
            Err(Fault::NoMemory) => Err(NoMemory),
        },
        Err(PlanFault::Refused(reason)) => Ok(WorkEnd::Refused(
            Work::new(alloc, book.hasher()),
            reason,
        )),
        Err(PlanFault::NoMemory) => Err(NoMemory),
    }
}

/// Treats the rules of an order one after the other. No job stops where what is kept may be relied on.
fn treat_all<R: Rebuilder>(
    alloc: Global,
    rebuilder: &R,
    kept: &Kept,
    book: &Book,
    names: &[Name],
) -> Result<Work, Fault>
    requires in_order { InOrder (book_view book.now) [] names.now }
    requires once { NoneTwice names.now }
    ensures { Treats (R.how rebuilder.now) (kept_view kept.now) (book_view book.now) names.now result }
{
    let mut work = Work::with_room(alloc, names.len(), book.hasher())?;
    let mut bench = Bench::new(alloc, book);
    for at in 0..names.len() {
        treat(
            alloc, rebuilder, kept, book, &mut bench, &mut work, &names[at],
        )?;
    }
    Ok(work)
}

/// Treats the next rule of the order: its job is made, takes one turn on the bench, and what it made is finished.
fn treat<R: Rebuilder>(
    alloc: Global,
    rebuilder: &R,
    kept: &Kept,
    book: &Book,
    bench: &mut Bench<'_, R::Job>,
    work: &mut Work,
    name: &Name,
) -> Result<(), Fault>
    requires is_rule { IsRule (book_view book.now) name.now }
    requires same_book { book_of bench.old ≡ book_view book.now }
    requires no_jobs { HaveNoJobs (spots_of bench.old) }
    requires unknown { spots_of bench.old name.now ≡ None }
    ensures book { book_of bench.new ≡ book_of bench.old }
    ensures no_jobs { OnOk result (HaveNoJobs (spots_of bench.new)) }
    ensures others { OnOk result (OthersStay (spots_of bench.old) (spots_of bench.new) name.now) }
    ensures chain { work.new.chain ≡ work.old.chain }
    ensures longer { OnOk result (length work.new.finished ≡ length work.old.finished + 1) }
    ensures keys { OnOk result (keys_in work.new.finished ≡ keys_in work.old.finished ++ name.now ∷ []) }
    ensures advances { Advances R.Job.fits (R.how rebuilder.now) (kept_view kept.now) (book_view book.now) (spots_of bench.old) (spots_of bench.new) work.old work.new name.now result }
{
    let job = rebuilder.start(alloc, kept, book, name)?;
    let at = bench.demand_rule(job)?;
    let key = name.copy(alloc)?.hinted(at);
    let Some(made) = bench.turn(alloc, &key, &mut work.runs)? else {
        return Err(Fault::Stopped);
    };
    let finished = finish(alloc, rebuilder, book, &work.finished, made)?;
    work.finished.push(finished)?;
    Ok(())
}
