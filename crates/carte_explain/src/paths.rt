// The first path by which a key leads to a name that has changed.
ghost use Rattle.std.specs.Prelude.{◌≡◌, not, IfOk, option_copied};
ghost use Rattle.carte_book.specs.Book.{book_view};
ghost use Rattle.carte_book.specs.Task.{task_now};
ghost use Rattle.carte_mark.specs.Reached.{has_changed, is_other};
ghost use Rattle.carte_record.specs.Kept.{kept_view};
ghost use Rattle.carte_table.specs.Lookups.{first_link};
ghost use Rattle.carte_sound.specs.Begun.{is_digest};
ghost use Rattle.carte_sound.specs.Marks.{IsChanged, present};
ghost use Rattle.carte_explain.specs.Paths.{IsChangedAnswer, end_of, is_changed, is_seen_changed, needs_at, needs_in};

use crate::nodes::nodes;
use carte_book::{Book, Looked};
use carte_record::{Entry, Kept, Seen};
use carte_search::{Graph, first_path};
use carte_value::{Digest, Name, Names, NoMemory};
use std::alloc::Global;
use std::slice;

/// Of each key the needs of its entry, and as goals the names that were seen with a digest, or have an entry with a task,
/// that they haven't now.
#[derive(Drop)]
struct Needs<'a> {
    kept: &'a Kept,
    book: &'a Book,
}

impl<'a> Graph for Needs<'a> {
    ghost nexts = { λ g. needs_at (kept_view g.kept.now) };

    ghost is_goal = { λ g. IsChanged (kept_view g.kept.now) (book_view g.book.now) };

    fn look(&self, alloc: Global, name: &Name) -> Result<Option<Names>, NoMemory> {
        if is_changed(alloc, self.kept, self.book, name)? {
            return Ok(None);
        }
        Ok(Some(needs_of(alloc, self.kept.entries.find(name))?))
    }
}

/// The first path from the key, by the needs of entries, to a name that has changed. `None` where there is none.
pub(crate) fn changed_path(
    alloc: Global,
    kept: &Kept,
    book: &Book,
    key: &Name,
) -> Result<Option<Names>, NoMemory>
    ensures { IfOk result (IsChangedAnswer (kept_view kept.now) (book_view book.now) key.now) }
{
    let nodes = nodes(alloc, kept)?;
    first_path(alloc, &Needs { kept, book }, slice::from_ref(key), nodes)
}

/// Whether a path ends in a name that was seen as an input, with another digest than it has now.
pub(crate) fn ends_in_input(kept: &Kept, book: &Book, path: &Names) -> bool
    ensures { result ≡ is_seen_changed (kept_view kept.now) (book_view book.now) (end_of path.now) }
{
    match path.as_slice().last() {
        Some(name) => has_changed(&kept.seen, book, name),
        None => false,
    }
}

fn needs_of(alloc: Global, entry: Option<&Entry>) -> Result<Names, NoMemory>
    ensures { IfOk result (λ names. names ≡ needs_in (option_copied entry.entry)) }
{
    match entry {
        Some(entry) => entry.needs.copy(alloc),
        None => Ok(Names::new(alloc)),
    }
}

fn is_changed(alloc: Global, kept: &Kept, book: &Book, name: &Name) -> Result<bool, NoMemory>
    ensures { IfOk result (λ changed. changed ≡ is_changed (kept_view kept.now) (book_view book.now) name.now) }
{
    if has_changed(&kept.seen, book, name) {
        return Ok(true);
    }
    has_other_task(alloc, book, kept.entries.find(name), name)
}

fn has_other_task(
    alloc: Global,
    book: &Book,
    entry: Option<&Entry>,
    name: &Name,
) -> Result<bool, NoMemory>
    ensures { IfOk result (λ other. other ≡ is_other (option_copied entry.entry) (task_now (book_view book.now) name.now)) }
{
    match entry {
        Some(entry) => is_other_task(alloc, book, &entry.task, name),
        None => Ok(false),
    }
}

fn is_other_task(alloc: Global, book: &Book, task: &Digest, name: &Name) -> Result<bool, NoMemory>
    ensures { IfOk result (λ other. other ≡ not (is_digest (task_now (book_view book.now) name.now) task.now)) }
{
    match book.task_digest(alloc, name)? {
        Some(present) => Ok(present != *task),
        None => Ok(true),
    }
}

fn has_changed(seen: &Seen, book: &Book, name: &Name) -> bool
    ensures { result ≡ has_changed (first_link seen.now name.now) (present (book_view book.now) name.now) }
{
    match seen.find(name) {
        Some(digest) => !is_present(book, name, digest),
        None => false,
    }
}

fn is_present(book: &Book, name: &Name, digest: &Digest) -> bool
    ensures { result ≡ is_digest (present (book_view book.now) name.now) digest.now }
{
    match book.lookup(name) {
        Looked::Input(value) => value.digest() == *digest,
        Looked::Rule(_) => false,
        Looked::None => false,
    }
}
