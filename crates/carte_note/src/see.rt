ghost use Rattle.std.specs.Prelude.{◌≡◌, OnOk, is_some};
ghost use Rattle.carte_value.specs.Lists.{Begins};
ghost use Rattle.carte_book.specs.Book.{book_view};
ghost use Rattle.carte_table.specs.Lookups.{first_link};
ghost use Rattle.carte_sound.specs.Begun.{is_digest};
ghost use Rattle.carte_sound.specs.Marks.{present};
ghost use Rattle.carte_note.specs.Writes.{with_seen, all_seen};

use carte_book::Book;
use carte_record::Seen;
use carte_value::{Link, Links, Name, NoMemory, Same};
use std::alloc::Global;

/// Puts the inputs among these links in, with their digests, but for those that are there or kept so.
pub(crate) fn see_all(
    alloc: Global,
    kept: &Seen,
    book: &Book,
    links: &Links,
    seen: &mut Seen,
) -> Result<(), NoMemory>
    ensures front { Begins seen.old seen.new }
    ensures seen { OnOk result (seen.new ≡ all_seen (book_view book.now) kept.now links.now seen.old) }
{
    for link in links.as_slice() {
        see(alloc, kept, book, link, seen)?;
    }
    Ok(())
}

fn see(
    alloc: Global,
    kept: &Seen,
    book: &Book,
    link: &Link,
    seen: &mut Seen,
) -> Result<(), NoMemory>
    ensures front { Begins seen.old seen.new }
    ensures seen { OnOk result (seen.new ≡ with_seen (book_view book.now) kept.now link.now seen.old) }
{
    if is_input(book, &link.name) && !(seen.find(&link.name).is_some() || is_kept(kept, link)) {
        return seen.push(link.same(alloc)?);
    }
    Ok(())
}

fn is_input(book: &Book, name: &Name) -> bool
    ensures { result ≡ is_some (present (book_view book.now) name.now) }
{
    book.is_input(name)
}

fn is_kept(kept: &Seen, link: &Link) -> bool
    ensures { result ≡ is_digest (first_link kept.now link.now.name) link.now.digest }
{
    match kept.find(&link.name) {
        Some(digest) => *digest == link.digest,
        None => false,
    }
}
