// Traces as members of a set, told apart by what they have in them.
ghost use Rattle.std.specs.Prelude.{◌≡◌, ℕ, List, fold, map};
ghost use Rattle.std.specs.Cmp.{on_equiv, on_per, partial_equiv_from_equiv};
ghost use Rattle.carte_compact.specs.Latest.{fed, fed_deep};
ghost use Rattle.carte_compact.specs.Contents.{alike_equivalence, fed_alike};

use carte_record::{DeepTrace, Trace};
use carte_table::Compared;
use carte_value::Link;
use std::hash::{Hash, Hasher};

/// A trace of which equal ones have the same hash.
pub(crate) trait Hashed: Compared {
    ghost fed: { Self → List (List ℕ) };

    /// Puts what is hashed of it into a hasher, piece by piece.
    fn feed<H: Hasher>(&self, state: &mut H)
        ensures { state.new ≡ fold H.write state.old (fed self.now) };
}

impl Hashed for Trace {
    ghost fed = { fed };

    fn feed<H: Hasher>(&self, state: &mut H) {
        self.key.hash(state);
        state.write(self.task.0.as_slice());
        state.write(self.result.0.as_slice());
        feed(self.links.as_slice(), state);
    }
}

impl Hashed for DeepTrace {
    ghost fed = { fed_deep };

    fn feed<H: Hasher>(&self, state: &mut H) {
        self.key.hash(state);
        state.write(self.result.0.as_slice());
        feed(self.tasks.as_slice(), state);
        feed(self.links.as_slice(), state);
    }
}

fn feed<H: Hasher>(links: &[Link], state: &mut H)
    ensures { state.new ≡ fold H.write state.old (map (λ l. l.digest.0) links.now) }
{
    for link in links {
        state.write(link.digest.0.as_slice());
    }
}

/// A trace that stands elsewhere.
#[derive(Drop)]
pub(crate) struct Content<'a, T> {
    pub(crate) trace: &'a T,
}

impl<T: Hashed> PartialEq for Content<'_, T> {
    ghost eq = { λ s t. T.alike s.trace.now t.trace.now };

    ghost laws = { on_per (λ s. s.trace.now) (partial_equiv_from_equiv (alike_equivalence T.alike T.alike_is T.alike_self)) };

    fn eq(&self, other: &Content<'_, T>) -> bool {
        self.trace.is_alike(other.trace)
    }
}

impl<T: Hashed> Eq for Content<'_, T> {
    ghost laws = { on_equiv (λ s. s.trace.now) (alike_equivalence T.alike T.alike_is T.alike_self) };
}

impl<T: Hashed> Hash for Content<'_, T> {
    ghost hash_input = { λ s. T.fed s.trace.now };

    ghost respects_eq = { λ s t. fed_alike T.alike T.alike_is T.alike_self T.fed s.trace.now t.trace.now };

    fn hash<H: Hasher>(&self, state: &mut H) {
        self.trace.feed(state);
    }
}
