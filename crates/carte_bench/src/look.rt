ghost use Rattle.std.specs.Prelude.{◌≡◌, None, option_copied};
ghost use Rattle.carte_name.specs.Names.{name_eq};
ghost use Rattle.carte_effect.specs.Sights.{Sees};
ghost use Rattle.carte_book.specs.Book.{book_view, content};
ghost use Rattle.carte_bench.specs.Spots.{is_done, sight_in, sight_at};
ghost use Rattle.carte_bench.specs.Rules.{AreRules, AreRules-prop};
ghost use Rattle.std.specs.HashMap.{get};

use crate::{Bench, Slot};
use carte_book::{Book, Looked};
use carte_effect::{Look, Seen};
use carte_value::{Name, Seeded};
use indexmap::IndexMap;

impl<J> Bench<'_, J> {
    ghost use Rattle.carte_bench.specs.Held.{spots_of};

    /// Whether a key has its value.
    pub(crate) fn is_done(&self, name: &Name) -> bool
        ensures { result ≡ is_done (spots_of self.now name.now) }
    {
        matches!(self.slots.get(name), Some(Slot::Done(_)))
    }
}

/// An input's value, the value of a rule that is done, or why there is none.
impl<J> Look for Bench<'_, J> {
    ghost use Rattle.carte_bench.specs.Held.{spots_of, book_of};

    ghost sight = { λ bench k. sight_in (book_of bench) (spots_of bench) k };

    fn look(&self, name: &Name) -> Seen<'_> {
        seen(self.book, &self.slots, name.hint(), name)
    }
}

/// What a bench shows, beside its table of digests, which is written to meanwhile.
#[derive(Drop)]
pub(crate) struct Shown<'a, J> {
    pub(crate) book: &'a Book,
    pub(crate) slots: &'a IndexMap<Name, Slot<J>, Seeded>,
    /// The place of the name at which the job stopped, a hint: that one is looked at first.
    pub(crate) awaited: usize,
    ghost rules: { AreRules (book_view book.now) (get name_eq slots.now) } by { AreRules-prop (book_view book.now) (get name_eq slots.now) },
}

/// What the bench sees.
impl<J> Look for Shown<'_, J> {
    ghost use Rattle.carte_bench.specs.Held.{shown_spots, shown_book};

    ghost sight = { λ shown k. sight_in (shown_book shown) (shown_spots shown) k };

    fn look(&self, name: &Name) -> Seen<'_> {
        seen(self.book, self.slots, self.awaited, name)
    }
}

// The slots are asked first: where one stands, the name is a rule, and the book isn't asked.
fn seen<'a, J>(
    book: &'a Book,
    slots: &'a IndexMap<Name, Slot<J>, Seeded>,
    hint: usize,
    name: &Name,
) -> Seen<'a>
    requires rules { AreRules (book_view book.now) (get name_eq slots.now) }
    ensures { Sees result (sight_in (book_view book.now) (get name_eq slots.now) name.now) }
{
    match slot_of(slots, hint, name) {
        Some(Slot::Done(made)) => Seen::Made(made.hashed()),
        Some(_) => Seen::NotDone(name.hint()),
        None => shown_by(book, name),
    }
}

// What a book shows of a name that has no slot.
fn shown_by<'a>(book: &'a Book, name: &Name) -> Seen<'a>
    ensures { Sees result (sight_at (content (book_view book.now) name.now) None) }
{
    match book.lookup_at(name) {
        (Looked::Input(value), _) => Seen::Value(value),
        (Looked::Rule(_), at) => Seen::NotDone(at),
        (Looked::None, _) => Seen::Missing,
    }
}

// The slot of a name. The one at this place is tried first.
fn slot_of<'a, J>(
    slots: &'a IndexMap<Name, Slot<J>, Seeded>,
    hint: usize,
    name: &Name,
) -> Option<&'a Slot<J>>
    ensures { option_copied result ≡ get name_eq slots.now name.now }
{
    if let Some((held, slot)) = slots.get_index(hint) {
        if held == name {
            return Some(slot);
        }
    }
    slots.get(name)
}
