ghost use Rattle.std.specs.Prelude.{◌≡◌, ◌∷◌, ◌++◌, [], ℕ, List, IfOk, OnOk, is_none, not, take, ◌&&◌, if◌then◌else◌};
ghost use Rattle.carte_book.specs.Book.{book_view};
ghost use Rattle.carte_record.specs.Folds.{is_among};
ghost use Rattle.carte_record.specs.Kept.{SomeKept, kept_view};
ghost use Rattle.carte_sound.specs.LeadsTo.{chain_behind, marks_left};
ghost use Rattle.carte_sound.specs.Parts.{PartsInOrder, PartsRefused, PartsRestarting, PartsSuspending};
ghost use Rattle.carte_sound.specs.Begun.{begin};
ghost use Rattle.carte_sound.specs.Left.{keys_of};
ghost use Rattle.carte_sound.specs.Treated.{IsDoneInOrder, IsDoneRestarting, IsDoneSuspending};
ghost use Rattle.carte_note.specs.Lists.{finished_of};
ghost use Rattle.carte_note.specs.Right.{finishes_of};
ghost use Rattle.carte_mark.specs.Bases.{BeginsWith, beginning_of};
ghost use Rattle.carte_plan.specs.Cuts.{AllUnmarked, PlansParts, PlansPartsChained};
ghost use Rattle.carte_plan.specs.Planned.{HasJust, IsBuilt, PutsChain, opening};

use crate::cutting::{Cut, FULL_PART, in_parts};
use carte_book::Book;
use carte_mark::{Begun, holds, put_each};
use carte_note::FinishedList;
use carte_rebuild::Rebuilder;
use carte_record::{Batch, Kept};
use carte_value::{Name, Names, NoMemory, Numbering, Seeded};
use std::alloc::Global;
use std::thread::Threads;

/// The batches of a build, part by part, at least one: the first has the dropped names and the marks. `base` is what the
/// build began with. Nothing is copied but values and links that later parts look up, of
/// which a copy is short or shared.
pub fn plan_parts<R: Rebuilder, T: Threads>(
    rt: &T,
    alloc: Global,
    rebuilder: &R,
    begun: &Begun,
    base: &Kept,
    book: &Book,
    finished: &FinishedList,
) -> Result<Vec<Batch>, NoMemory>
    ensures unmarked { IfOk result (λ batches. AllUnmarked batches.items) }
    ensures in_order { let b = book_view book.now in let h = R.how rebuilder.now in (K : SomeKept) (targets : List (List ℕ)) → BeginsWith K b begun.now (kept_view base.now) → IsBuilt h K b (beginning_of begun.now) (IsDoneInOrder b targets) finished.now → IfOk result (λ batches. PartsInOrder h K b targets batches.items) }
    ensures suspending { let b = book_view book.now in let h = R.how rebuilder.now in (K : SomeKept) (targets : List (List ℕ)) → BeginsWith K b begun.now (kept_view base.now) → IsBuilt h K b (beginning_of begun.now) (IsDoneSuspending h (begin K (beginning_of begun.now)) b targets) finished.now → IfOk result (λ batches. PartsSuspending h K b targets batches.items) }
    ensures refused { let b = book_view book.now in let h = R.how rebuilder.now in (K : SomeKept) → BeginsWith K b begun.now (kept_view base.now) → IsBuilt h K b (beginning_of begun.now) (λ k. ⊥) finished.now → IfOk result (λ batches. PartsRefused h K b batches.items) }
    // The same for whatever else may be done, as lemmas go on from it.
    ensures plans { let b = book_view book.now in let h = R.how rebuilder.now in (K : SomeKept) → BeginsWith K b begun.now (kept_view base.now) → IfOk result (λ batches. PlansParts h K b (beginning_of begun.now) finished.now batches.items) }
{
    let cut = cut_plan(rt, alloc, rebuilder, begun, base, book, finished)?;
    cut.all()
}

/// The same for a build that leaves a chain, which the last batch has where it isn't that of `base`.
pub fn plan_parts_chained<R: Rebuilder, T: Threads>(
    rt: &T,
    alloc: Global,
    rebuilder: &R,
    begun: &Begun,
    base: &Kept,
    book: &Book,
    finished: &FinishedList,
    chain: &Names,
) -> Result<Vec<Batch>, NoMemory>
    ensures unmarked { IfOk result (λ batches. AllUnmarked batches.items) }
    ensures restarting { let b = book_view book.now in let h = R.how rebuilder.now in (K : SomeKept) (targets : List (List ℕ)) → BeginsWith K b begun.now (kept_view base.now) → IsBuilt h K b (beginning_of begun.now) (IsDoneRestarting h (begin K (beginning_of begun.now)) b targets) finished.now
        → chain.now ≡ chain_behind (keys_of (finishes_of finished.now)) (kept_view base.now).chain → IfOk result (λ batches. PartsRestarting h K b targets batches.items) }
    // The same for whatever else may be done, as lemmas go on from it.
    ensures plans { let b = book_view book.now in let h = R.how rebuilder.now in (K : SomeKept) → BeginsWith K b begun.now (kept_view base.now) → IfOk result (λ batches. PlansPartsChained h K b (beginning_of begun.now) finished.now chain.now batches.items) }
{
    let mut cut = cut_plan(rt, alloc, rebuilder, begun, base, book, finished)?;
    put_chain(alloc, &base.chain, chain, &mut cut.last)?;
    cut.all()
}

fn cut_plan<R: Rebuilder, T: Threads>(
    rt: &T,
    alloc: Global,
    rebuilder: &R,
    begun: &Begun,
    base: &Kept,
    book: &Book,
    finished: &FinishedList,
) -> Result<Cut, NoMemory>
    ensures unmarked { IfOk result (λ cut. AllUnmarked (cut.full.items ++ cut.last ∷ [])) }
    ensures plans { let b = book_view book.now in let h = R.how rebuilder.now in (K : SomeKept) → BeginsWith K b begun.now (kept_view base.now) → IfOk result (λ cut. PlansParts h K b (beginning_of begun.now) finished.now (cut.full.items ++ cut.last ∷ [])) }
{
    let batch = opened(alloc, begun, book, finished, FULL_PART)?;
    let keys = finished.as_slice();
    in_parts(rt, alloc, rebuilder.method(), base, book, keys, batch)
}

// A chain is written whole, so it is written only where it differs.
fn put_chain(alloc: Global, old: &Names, chain: &Names, batch: &mut Batch) -> Result<(), NoMemory>
    ensures { OnOk result (PutsChain old.now chain.now batch.old batch.new) }
{
    if old.as_slice() == chain.as_slice() {
        return Ok(());
    }
    batch.chain = Some(chain.copy(alloc)?);
    Ok(())
}

/// A batch with the dropped names and the marks, but those of the first so many keys.
fn opened(
    alloc: Global,
    begun: &Begun,
    book: &Book,
    finished: &FinishedList,
    count: usize,
) -> Result<Batch, NoMemory>
    ensures { IfOk result (λ batch. batch ≡ opening begun.now.gone (marks_left (finishes_of (take count finished.now)) (beginning_of begun.now))) }
{
    let gone = begun.gone.copy(alloc)?;
    let stale = marks_left(alloc, begun, book.hasher(), finished, count)?;
    let mut batch = Batch::new(alloc, book.hasher());
    batch.gone = gone;
    batch.stale = stale;
    Ok(batch)
}

fn marks_left(
    alloc: Global,
    begun: &Begun,
    hasher: Seeded,
    finished: &FinishedList,
    count: usize,
) -> Result<Names, NoMemory>
    ensures { IfOk result (λ left. left ≡ marks_left (finishes_of (take count finished.now)) (beginning_of begun.now)) }
{
    let gone = set_of(alloc, &begun.gone, hasher)?;
    left_of(alloc, &begun.marks, &gone, finished, count)
}

// Many names may be dropped, so they are looked up in a set.
fn set_of(alloc: Global, names: &Names, hasher: Seeded) -> Result<Numbering, NoMemory>
    ensures { IfOk result (λ set. HasJust set names.now) }
{
    let mut set = Numbering::new(alloc, hasher);
    put_each(names, &mut set)?;
    Ok(set)
}

fn left_of(
    alloc: Global,
    marks: &Names,
    gone: &Numbering,
    finished: &FinishedList,
    count: usize,
) -> Result<Names, NoMemory>
    ensures { IfOk result (λ left. left ≡ marks_left (finishes_of (take count finished.now)) (record { marks = marks.now; gone = gone.now })) }
{
    let mut left = Names::new(alloc);
    for mark in marks.as_slice() {
        add_left(alloc, gone, finished, count, mark, &mut left)?;
    }
    Ok(left)
}

fn add_left(
    alloc: Global,
    gone: &Numbering,
    finished: &FinishedList,
    count: usize,
    mark: &Name,
    left: &mut Names,
) -> Result<(), NoMemory>
    ensures { OnOk result (left.new ≡ (if not (is_among gone.now mark.now) && is_none (finished_of (take count finished.now) mark.now) then left.old ++ mark.now ∷ [] else left.old)) }
{
    if is_among(gone, mark) || finished.find_before(mark, count).is_some() {
        return Ok(());
    }
    left.push(mark.copy(alloc)?)
}

fn is_among(names: &Numbering, name: &Name) -> bool
    ensures { result ≡ is_among names.now name.now }
{
    holds(names, name)
}
