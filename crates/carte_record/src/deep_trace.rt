ghost use Rattle.std.specs.Prelude.{◌≡◌};
ghost use Rattle.carte_record.specs.Lookups.{deep_eq};

use crate::trace::are_equal;
use carte_table::All;
use carte_value::{Digest, Links, Name, NoMemory, Same};
use std::alloc::Global;

/// A run of a key with all that it rests on: the rules beneath the key and the digests that their tasks had, the inputs
/// beneath it and the digests of their values, and that of its result.
#[derive(Debug, Drop)]
pub struct DeepTrace {
    pub key: Name,
    /// The key itself, and the rules met where its needs are walked depth first.
    pub tasks: Links,
    pub links: Links,
    pub result: Digest,
}

/// A list of at most 2^32 - 1 deep traces, seen as these traces, in which the traces of a key are looked up at once.
pub type DeepTraces = All<DeepTrace>;

impl Same for DeepTrace {
    fn same(&self, alloc: Global) -> Result<DeepTrace, NoMemory> {
        Ok(DeepTrace {
            key: self.key.copy(alloc)?,
            tasks: self.tasks.copy(alloc)?,
            links: self.links.copy(alloc)?,
            result: self.result,
        })
    }
}

impl DeepTrace {
    /// Whether another run of a key had the same tasks and links and came to the same.
    pub fn is_same(&self, other: &DeepTrace) -> bool
        ensures { result ≡ deep_eq self.now other.now }
    {
        self.key == other.key
            && self.result == other.result
            && are_equal(self.tasks.as_slice(), other.tasks.as_slice())
            && are_equal(self.links.as_slice(), other.links.as_slice())
    }
}
