ghost use Rattle.std.specs.Prelude.{◌≡◌, IfOk};

use crate::{Digests, Hashed};
use carte_value::{Name, NoMemory, SharedLinks};
use std::alloc::Global;
use std::marker::Model;
use std::sync::Arc;

/// A key with its value, and the names that this value was made of, with the digests of theirs.
#[derive(Debug, Drop)]
pub(crate) struct Record {
    pub(crate) key: Name,
    pub(crate) value: Hashed,
    pub(crate) links: SharedLinks,
}

impl Model for Record {
    ghost use Rattle.carte_effect.specs.Outcomes.{Outcome};

    ghost Value = { Outcome };

    ghost view = { λ r. record { key = r.key; value = r.value; links = r.links } };
}

/// A record that all copies share: the bench has one of each key that is done, and so has the list of what is finished.
#[derive(Debug, Drop)]
pub(crate) struct Shared {
    record: Arc<Record>,
}

impl Model for Shared {
    ghost use Rattle.std.specs.Arc.{arc_value};
    ghost use Rattle.carte_effect.specs.Outcomes.{Outcome};

    ghost Value = { Outcome };

    ghost view = { λ s. arc_value s.record };
}

impl Shared {
    #[inline(always)]
    pub(crate) fn of(alloc: Global, outcome: Record) -> Result<Shared, NoMemory>
        ensures { IfOk result (λ s. s ≡ outcome) }
    {
        let record = Arc::new(alloc, outcome)?;
        Ok(Shared { record })
    }

    pub(crate) fn copy(&self) -> Result<Shared, NoMemory>
        ensures { IfOk result (λ s. s ≡ self.now) }
    {
        let record = self.record.clone()?;
        Ok(Shared { record })
    }

    pub(crate) fn record(&self) -> &Record
        ensures { result.now ≡ self.now }
    {
        &self.record
    }

    /// Takes the digest of its value, where that wasn't taken yet and nothing shares it.
    pub(crate) fn hash(&mut self, digests: &mut Digests)
        ensures { self.new ≡ self.old }
    {
        if let Some(record) = Arc::get_mut(&mut self.record) {
            record.value.hash(digests);
        }
    }
}
