ghost use Rattle.std.specs.Prelude.{refl};
ghost use Rattle.carte_record_one.specs.Bodies.{spelled_entry};
ghost use Rattle.carte_record_one.specs.Marked.{marked_as};

use carte_codec::Measured;
use carte_table::{Firsts, Keyed, Marked};
use carte_value::{Digest, Name, Names, NoMemory, Same};
use std::alloc::Global;

/// What version 1 kept of a key that was finished.
#[derive(Debug, Drop)]
pub struct EntryOne {
    pub key: Name,
    /// The digest of its value.
    pub result: Digest,
    /// The names that it needs; of a shallow entry the inputs beneath it.
    pub needs: Names,
    /// Whether an input that it leads to has changed since.
    pub stale: bool,
    pub shallow: bool,
}

/// A list of at most 2^32 - 1 entries, in which a key is looked up at once.
pub type EntriesOne = Firsts<EntryOne>;

impl Same for EntryOne {
    fn same(&self, alloc: Global) -> Result<EntryOne, NoMemory> {
        Ok(EntryOne {
            key: self.key.copy(alloc)?,
            result: self.result,
            needs: self.needs.copy(alloc)?,
            stale: self.stale,
            shallow: self.shallow,
        })
    }
}

impl Measured for EntryOne {
    ghost spelled = { spelled_entry };

    fn length(&self) -> Option<u64> {
        self.key
            .length()?
            .checked_add(self.result.length()?)?
            .checked_add(1)?
            .checked_add(self.needs.length()?)
    }
}

impl Keyed for EntryOne {
    ghost key_of = { λ e. e.key };

    fn key(&self) -> &Name {
        &self.key
    }
}

impl Marked for EntryOne {
    ghost marked = { marked_as };

    fn mark(&mut self, is_marked: bool) {
        self.stale = is_marked;
    }

    ghost key_stays = { λ b e. refl };

    ghost spelling_stays = { λ b e. refl };
}
