// The names of a book by their places, which are in the order in which they were added.
ghost use Rattle.std.specs.Prelude.{◌≡◌, ℕ, is_some, slice_get, IfOk, IfSome};
ghost use Rattle.indexmap.specs.IndexMap.{values, hasher_of};
ghost use Rattle.std.specs.FinMap.{get};
ghost use Rattle.carte_name.specs.declared.kind.Kind.{Kind as SomeKind};
ghost use Rattle.carte_book.specs.Book.{book_view, hasher_in, entries_view};
ghost use Rattle.carte_book.specs.Fits.{Fits};
ghost use Rattle.carte_book.specs.Places.{task_at};
ghost use Rattle.carte_book.specs.Task.{task_held, task_now};

use crate::book::Items;
use crate::items::find;
use crate::{Book, Item};
use carte_value::{Digest, Name, NoMemory};
use std::alloc::Global;

impl Book {
    /// The place of a name that the book holds, counted from 0 in the order in which names were added, and none exactly where
    /// it holds none. Who goes through places in their order meets formulas in the order in which they stand in memory. It takes
    /// no memory.
    pub fn place(&self, name: &Name) -> Option<usize>
        ensures found { is_some result ≡ is_some (get (book_view self.now).items name.now) }
        ensures task { IfSome result (λ at. task_at self.now at ≡ task_now (book_view self.now) name.now) }
    {
        match find(&self.items, name) {
            Some((at, _)) => Some(at),
            None => None,
        }
    }

    /// The digest of the task of the name at a place, spelled in room that is kept from one task to the next. None exactly
    /// where no rule stands there. It is no work where the book knows it.
    pub fn task_digest_at(
        &self,
        alloc: Global,
        room: &mut Vec<u8>,
        at: usize,
    ) -> Result<Option<Digest>, NoMemory>
        ensures { IfOk result (λ d. d ≡ task_at self.now at) }
    {
        match self.items.get_index(at) {
            Some((_, Item::Rule(rule))) => Ok(Some(rule.digest(alloc, room, self.kind)?)),
            Some((_, Item::Input(_))) => Ok(None),
            None => Ok(None),
        }
    }

    /// Keeps what the digest of the task at a place was worked out to be: from then on it is known, while the rule stands. It
    /// does nothing where no rule stands there. It takes no memory.
    pub fn learn_task_at(&mut self, at: usize, task: Option<Digest>)
        requires { task ≡ task_at self.old at }
        ensures book { book_view self.new ≡ book_view self.old }
        ensures tasks { (place : ℕ) → task_at self.new place ≡ task_at self.old place }
        ensures hasher { hasher_in self.new ≡ hasher_in self.old }
    {
        let is_new = learn_at(&mut self.items, at, task);
        self.known_tasks = self.known_tasks.saturating_add(usize::from(is_new));
    }
}

// Keeps the digest of the task at a place, and tells whether it wasn't known yet.
fn learn_at(items: &mut Items, at: usize, task: Option<Digest>) -> bool
    ensures fits { (q : SomeKind) → Fits q items.old.entries → task ≡ task_held q (slice_get (values items.old) at) → Fits q items.new.entries }
    ensures view { entries_view items.new.entries ≡ entries_view items.old.entries }
    ensures tasks { (q : SomeKind) (place : ℕ) → task_held q (slice_get (values items.new) place) ≡ task_held q (slice_get (values items.old) place) }
    ensures hasher { hasher_of items.new ≡ hasher_of items.old }
{
    match items.get_index_mut(at) {
        Some(item) => item.learn(task),
        None => false,
    }
}
