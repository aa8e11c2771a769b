ghost use Rattle.std.specs.Prelude.{◌≡◌, IfOk, OnOk};
ghost use Rattle.carte_book.specs.Book.{book_view};
ghost use Rattle.carte_record.specs.Kept.{kept_view};
ghost use Rattle.carte_table.specs.Lookups.{first_link};
ghost use Rattle.carte_sound.specs.Begun.{is_digest};
ghost use Rattle.carte_sound.specs.Marks.{present};
ghost use Rattle.carte_mark.specs.Reached.{has_changed, AreChanged, AreSeenChanged, AddsChanged};

use crate::set::put;
use crate::tasks::put_changed_rules;
use carte_book::{Book, Looked};
use carte_effect::Digests;
use carte_record::{Kept, Seen};
use carte_value::{Digest, Link, Name, NoMemory, Numbering};
use std::alloc::Global;

/// The names that were seen with a digest that they haven't now, or have an entry with a task that they haven't now.
#[tactic(auto, using(crate::proofs::OtherTasks::both_changed))]
pub(crate) fn changed(alloc: Global, kept: &Kept, book: &Book) -> Result<Numbering, NoMemory>
    ensures { IfOk result (λ names. AreChanged (kept_view kept.now) (book_view book.now) names) }
{
    let mut names = changed_inputs(alloc, kept, book)?;
    put_changed_rules(alloc, kept, book, &mut names)?;
    Ok(names)
}

fn changed_inputs(alloc: Global, kept: &Kept, book: &Book) -> Result<Numbering, NoMemory>
    ensures { IfOk result (λ names. AreSeenChanged (kept_view kept.now) (book_view book.now) names) }
{
    let hasher = book.hasher();
    let mut digests = Digests::new(alloc, hasher);
    let mut names = Numbering::new(alloc, hasher);
    for link in kept.seen.as_slice() {
        add_changed(kept, book, link, &mut digests, &mut names)?;
    }
    Ok(names)
}

// Of a name that has several links the first counts. It is looked up only where the link's own digest isn't the present one.
fn add_changed(
    kept: &Kept,
    book: &Book,
    link: &Link,
    digests: &mut Digests,
    names: &mut Numbering,
) -> Result<(), NoMemory>
    ensures { OnOk result (AddsChanged (kept_view kept.now) (book_view book.now) link.now names.old names.new) }
{
    if is_present(book, &link.name, &link.digest, digests)
        || !has_changed(&kept.seen, book, &link.name, digests)
    {
        return Ok(());
    }
    put(&link.name, names)
}

pub(crate) fn has_changed(seen: &Seen, book: &Book, name: &Name, digests: &mut Digests) -> bool
    ensures { result ≡ has_changed (first_link seen.now name.now) (present (book_view book.now) name.now) }
{
    match seen.find(name) {
        Some(digest) => !is_present(book, name, digest, digests),
        None => false,
    }
}

fn is_present(book: &Book, name: &Name, digest: &Digest, digests: &mut Digests) -> bool
    ensures { result ≡ is_digest (present (book_view book.now) name.now) digest.now }
{
    match book.lookup(name) {
        Looked::Input(value) => digests.of(value) == *digest,
        Looked::Rule(_) => false,
        Looked::None => false,
    }
}
