ghost use Rattle.std.specs.Prelude.{◌≡◌, ◌↔◌, ◌||◌, true, is_some, IfOk, OnOk};
ghost use Rattle.carte_value.specs.Truths.{IsListOf};
ghost use Rattle.carte_book.specs.Book.{book_view};
ghost use Rattle.carte_record.specs.Kept.{kept_view};
ghost use Rattle.carte_sound.specs.Begun.{IsGone};
ghost use Rattle.carte_mark.specs.Marking.{Pushes, ArePicked};
ghost use Rattle.carte_mark.specs.Reached.{AreChanged};

use crate::marking::in_order;
use carte_book::{Book, Looked};
use carte_record::Kept;
use carte_value::{Name, Names, NoMemory, Numbering};
use std::alloc::Global;

/// The names, in name order, that were seen and are no inputs, or have an entry and are no rules. They are among those that
/// have changed.
pub(crate) fn gone(
    alloc: Global,
    kept: &Kept,
    book: &Book,
    changed: &Numbering,
) -> Result<Names, NoMemory>
    ensures { IfOk result (λ gone. AreChanged (kept_view kept.now) (book_view book.now) changed.now → IsListOf (IsGone (kept_view kept.now) (book_view book.now)) gone) }
{
    let gone = gone_among(alloc, kept, book, changed)?;
    in_order(alloc, gone)
}

fn gone_among(
    alloc: Global,
    kept: &Kept,
    book: &Book,
    changed: &Numbering,
) -> Result<Vec<Name>, NoMemory>
    ensures { IfOk result (λ gone. ArePicked (IsGone (kept_view kept.now) (book_view book.now)) changed.now gone.items) }
{
    let mut gone = Vec::new(alloc);
    for name in changed.as_slice() {
        push_gone(alloc, kept, book, name, &mut gone)?;
    }
    Ok(gone)
}

fn push_gone(
    alloc: Global,
    kept: &Kept,
    book: &Book,
    name: &Name,
    gone: &mut Vec<Name>,
) -> Result<(), NoMemory>
    ensures { OnOk result (Pushes (IsGone (kept_view kept.now) (book_view book.now)) gone.old.items gone.new.items name.now) }
{
    if is_gone(kept, book, name) {
        gone.push(name.copy(alloc)?)?;
    }
    Ok(())
}

fn is_gone(kept: &Kept, book: &Book, name: &Name) -> bool
    ensures { (result ≡ true) ↔ IsGone (kept_view kept.now) (book_view book.now) name.now }
{
    match book.lookup(name) {
        Looked::Input(_) => has_entry(kept, name),
        Looked::Rule(_) => was_seen(kept, name),
        Looked::None => is_kept(kept, name),
    }
}

fn is_kept(kept: &Kept, name: &Name) -> bool
    ensures { result ≡ (is_some ((kept_view kept.now).entries name.now) || is_some ((kept_view kept.now).seen name.now)) }
{
    has_entry(kept, name) || was_seen(kept, name)
}

fn has_entry(kept: &Kept, name: &Name) -> bool
    ensures { result ≡ is_some ((kept_view kept.now).entries name.now) }
{
    kept.entries.find(name).is_some()
}

fn was_seen(kept: &Kept, name: &Name) -> bool
    ensures { result ≡ is_some ((kept_view kept.now).seen name.now) }
{
    kept.seen.find(name).is_some()
}
