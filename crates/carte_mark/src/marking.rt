ghost use Rattle.std.specs.Prelude.{◌≡◌, ◌↔◌, ℕ, List, true, IfOk, OnOk};
ghost use Rattle.carte_value.specs.Truths.{Among, IsListOf};
ghost use Rattle.carte_book.specs.Book.{Book as SomeBook, book_view};
ghost use Rattle.carte_record.specs.Kept.{kept_view};
ghost use Rattle.carte_sound.specs.Marks.{IsMarked};
ghost use Rattle.carte_mark.specs.Marking.{IsToMark, Pushes, ArePicked};
ghost use Rattle.carte_mark.specs.Passes.{AreReached};
ghost use Rattle.carte_mark.specs.Reached.{AreChanged};

use crate::changed::changed;
use crate::reach::reached;
use carte_book::Book;
use carte_record::{Entries, Kept};
use carte_value::{Name, Names, NoMemory, Numbering};
use std::alloc::Global;

/// The keys, in name order, whose entries aren't stale and that have changed or lead to a changed name.
#[tactic(auto, using(crate::proofs::Listing::marked_over))]
pub fn mark(alloc: Global, kept: &Kept, book: &Book) -> Result<Names, NoMemory>
    ensures { IfOk result (IsListOf (IsMarked (kept_view kept.now) (book_view book.now))) }
{
    let changed = changed(alloc, kept, book)?;
    marks_over(alloc, kept, changed)
}

/// The same where these names have changed.
pub(crate) fn marks_over(alloc: Global, kept: &Kept, changed: Numbering) -> Result<Names, NoMemory>
    ensures { IfOk result (λ marks. (b : SomeBook) → AreChanged (kept_view kept.now) b changed → IsListOf (IsMarked (kept_view kept.now) b) marks) }
{
    if changed.is_empty() {
        return Ok(Names::new(alloc));
    }
    let reached = reached(alloc, kept, changed)?;
    marks_of(alloc, kept, &reached)
}

/// The same where these were reached from the changed names.
pub(crate) fn marks_of(alloc: Global, kept: &Kept, reached: &Numbering) -> Result<Names, NoMemory>
    ensures { IfOk result (λ marks. (b : SomeBook) (names : List (List ℕ)) → AreChanged (kept_view kept.now) b names → AreReached kept.now names reached.now → IsListOf (IsMarked (kept_view kept.now) b) marks) }
{
    let marks = to_mark(alloc, &kept.entries, reached)?;
    in_order(alloc, marks)
}

fn to_mark(alloc: Global, entries: &Entries, reached: &Numbering) -> Result<Vec<Name>, NoMemory>
    ensures { IfOk result (λ marks. ArePicked (IsToMark entries.now) reached.now marks.items) }
{
    let mut marks = Vec::new(alloc);
    for name in reached.as_slice() {
        push_to_mark(alloc, entries, name, &mut marks)?;
    }
    Ok(marks)
}

fn push_to_mark(
    alloc: Global,
    entries: &Entries,
    name: &Name,
    marks: &mut Vec<Name>,
) -> Result<(), NoMemory>
    ensures { OnOk result (Pushes (IsToMark entries.now) marks.old.items marks.new.items name.now) }
{
    if is_to_mark(entries, name) {
        marks.push(name.copy(alloc)?)?;
    }
    Ok(())
}

fn is_to_mark(entries: &Entries, name: &Name) -> bool
    ensures { (result ≡ true) ↔ IsToMark entries.now name.now }
{
    match entries.find(name) {
        Some(entry) => !entry.stale,
        None => false,
    }
}

/// These names in name order, each once.
pub(crate) fn in_order(alloc: Global, names: Vec<Name>) -> Result<Names, NoMemory>
    ensures { IfOk result (IsListOf (Among names.items)) }
{
    let mut names = names;
    names.sort_unstable();
    names.dedup();
    listed(alloc, names)
}

/// These names as a list.
pub fn listed(alloc: Global, marks: Vec<Name>) -> Result<Names, NoMemory>
    ensures { IfOk result (λ names. names ≡ marks.items) }
{
    let mut names = Names::with_room(alloc, marks.len())?;
    for name in marks {
        names.push(name)?;
    }
    Ok(names)
}
