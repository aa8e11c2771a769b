ghost use Rattle.std.specs.Prelude.{◌≡◌, ◌∷◌, ℕ, List, None, true, is_none, IsTrue, IfOk, OnOk, OnErr};
ghost use Rattle.carte_book.specs.Book.{book_view};
ghost use Rattle.carte_book.specs.Needs.{IsRule};
ghost use Rattle.carte_record.specs.Kept.{kept_view};
ghost use Rattle.carte_bench.specs.Held.{spots_of, book_of};
ghost use Rattle.carte_bench.specs.Spots.{IsSame, name_of};
ghost use Rattle.carte_progress.specs.Opening.{IsFreshRule, IsStopIn, Opens};

use carte_bench::{Bench, Place};
use carte_book::{Book, Looked};
use carte_effect::{Job, Stuck};
use carte_rebuild::Rebuilder;
use carte_record::Kept;
use carte_value::{Name, NoMemory};
use std::alloc::Global;
use std::collections::VecDeque;

/// Demands a rule that the bench doesn't know and puts it before the path. A path that waits for any other name is dropped:
/// that one has nothing, or no turn helps it. The bench is one over this book, and isn't asked for the name again. Where there
/// is no memory, nothing has changed.
pub fn open<R: Rebuilder>(
    alloc: Global,
    rebuilder: &R,
    kept: &Kept,
    book: &Book,
    bench: &mut Bench<'_, R::Job>,
    path: &mut VecDeque<Name>,
    name: Name,
) -> Result<(), NoMemory>
    requires same_book { book_of bench.old ≡ book_view book.now }
    ensures book { book_of bench.new ≡ book_of bench.old }
    ensures kept { OnErr result (IsSame (spots_of bench.old) (spots_of bench.new)) }
    ensures path { OnErr result (path.new.items ≡ path.old.items) }
    ensures opens { OnOk result (Opens R.Job.name R.Job.started (λ k j. R.begun rebuilder.now (kept_view kept.now) (book_view book.now) (λ q. None) k j) (book_view book.now) (spots_of bench.old) (spots_of bench.new) path.old.items path.new.items name) }
{
    let fresh = is_fresh(alloc, book, bench, &name)?;
    open_if(alloc, rebuilder, kept, book, bench, path, name, fresh)
}

/// The same for the name at which a job stopped, of which the stop tells whether it is a rule.
pub fn open_stop<R: Rebuilder>(
    alloc: Global,
    rebuilder: &R,
    kept: &Kept,
    book: &Book,
    bench: &mut Bench<'_, R::Job>,
    path: &mut VecDeque<Name>,
    stuck: Stuck,
) -> Result<(), NoMemory>
    requires stop { IsStopIn (book_view book.now) stuck }
    requires same_book { book_of bench.old ≡ book_view book.now }
    ensures book { book_of bench.new ≡ book_of bench.old }
    ensures kept { OnErr result (IsSame (spots_of bench.old) (spots_of bench.new)) }
    ensures path { OnErr result (path.new.items ≡ path.old.items) }
    ensures opens { OnOk result (Opens R.Job.name R.Job.started (λ k j. R.begun rebuilder.now (kept_view kept.now) (book_view book.now) (λ q. None) k j) (book_view book.now) (spots_of bench.old) (spots_of bench.new) path.old.items path.new.items (name_of stuck)) }
{
    match stuck {
        Stuck::NotDone(name) => {
            let fresh = is_unknown(alloc, bench, &name)?;
            open_if(alloc, rebuilder, kept, book, bench, path, name, fresh)
        }
        Stuck::Missing(name) => open_if(alloc, rebuilder, kept, book, bench, path, name, false),
    }
}

// The same, where it is known whether the name is a rule that the bench doesn't know.
fn open_if<R: Rebuilder>(
    alloc: Global,
    rebuilder: &R,
    kept: &Kept,
    book: &Book,
    bench: &mut Bench<'_, R::Job>,
    path: &mut VecDeque<Name>,
    name: Name,
    fresh: bool,
) -> Result<(), NoMemory>
    requires fresh { IsFreshRule (book_view book.now) (spots_of bench.old) name fresh }
    requires rule { IsTrue fresh → IsRule (book_of bench.old) name }
    ensures book { book_of bench.new ≡ book_of bench.old }
    ensures kept { OnErr result (IsSame (spots_of bench.old) (spots_of bench.new)) }
    ensures path { OnErr result (path.new.items ≡ path.old.items) }
    ensures opens { OnOk result (Opens R.Job.name R.Job.started (λ k j. R.begun rebuilder.now (kept_view kept.now) (book_view book.now) (λ q. None) k j) (book_view book.now) (spots_of bench.old) (spots_of bench.new) path.old.items path.new.items name) }
{
    if !fresh {
        path.clear();
        return Ok(());
    }
    let job = rebuilder.start(alloc, kept, book, &name)?;
    // Room first: what was demanded couldn't be taken back.
    path.reserve(1)?;
    let at = bench.demand_rule(job)?;
    path.push_front_reserved(name.hinted(at));
    Ok(())
}

/// Whether a name is a rule that the bench doesn't know.
fn is_fresh<J: Job + Drop>(
    alloc: Global,
    book: &Book,
    bench: &Bench<'_, J>,
    name: &Name,
) -> Result<bool, NoMemory>
    ensures { IfOk result (IsFreshRule (book_view book.now) (spots_of bench.now) name.now) }
{
    match book.lookup(name) {
        Looked::Rule(_) => is_unknown(alloc, bench, name),
        _ => Ok(false),
    }
}

fn is_unknown<J: Job + Drop>(
    alloc: Global,
    bench: &Bench<'_, J>,
    name: &Name,
) -> Result<bool, NoMemory>
    ensures { IfOk result (λ unknown. unknown ≡ is_none (spots_of bench.now name.now)) }
{
    Ok(matches!(bench.place(alloc, name)?, Place::Unknown))
}

/// Puts a name before a path. Where there is no memory, nothing has changed.
pub fn push(path: &mut VecDeque<Name>, name: Name) -> Result<(), NoMemory>
    ensures put { OnOk result (path.new.items ≡ name ∷ path.old.items) }
    ensures refused { OnErr result (path.new.items ≡ path.old.items) }
{
    match path.push_front(name) {
        Ok(()) => Ok(()),
        Err(_) => Err(NoMemory),
    }
}
