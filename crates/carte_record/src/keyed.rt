//! What lists with tables know of entries and traces.
ghost use Rattle.std.specs.Prelude.{refl};
ghost use Rattle.carte_record.specs.Lookups.{trace_eq, deep_eq};
ghost use Rattle.carte_record.specs.Marked.{marked_as};
ghost use Rattle.carte_record.specs.Alike.{trace_eq_is, trace_eq_self, deep_eq_is, deep_eq_self};

use crate::{DeepTrace, Entry, Trace};
use carte_table::{Compared, Keyed, Marked};
use carte_value::Name;

impl Keyed for Entry {
    ghost key_of = { λ e. e.key };

    fn key(&self) -> &Name {
        &self.key
    }
}

impl Marked for Entry {
    ghost marked = { marked_as };

    fn mark(&mut self, is_marked: bool) {
        self.stale = is_marked;
    }

    ghost key_stays = { λ b e. refl };

    ghost spelling_stays = { λ b e. refl };
}

impl Keyed for Trace {
    ghost key_of = { λ t. t.key };

    fn key(&self) -> &Name {
        &self.key
    }
}

impl Compared for Trace {
    ghost alike = { trace_eq };

    fn is_alike(&self, other: &Trace) -> bool {
        self.is_same(other)
    }

    ghost alike_is = { trace_eq_is };

    ghost alike_self = { trace_eq_self };
}

impl Keyed for DeepTrace {
    ghost key_of = { λ t. t.key };

    fn key(&self) -> &Name {
        &self.key
    }
}

impl Compared for DeepTrace {
    ghost alike = { deep_eq };

    fn is_alike(&self, other: &DeepTrace) -> bool {
        self.is_same(other)
    }

    ghost alike_is = { deep_eq_is };

    ghost alike_self = { deep_eq_self };
}
