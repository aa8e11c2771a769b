ghost use Rattle.std.specs.Prelude.{◌≡◌, IfOk};

use carte_value::{Digest, Name, Names, NoMemory, Same};
use std::alloc::Global;

/// What is kept of a key that was finished.
#[derive(Debug, Drop)]
pub struct Entry {
    pub key: Name,
    /// The digest of its task: of its formula, and of the kind of its book.
    pub task: Digest,
    /// The digest of its value.
    pub result: Digest,
    /// The names that it needs; of a shallow entry the inputs beneath it.
    pub needs: Names,
    /// Whether its task, or a name that it leads to, has changed since.
    pub stale: bool,
    pub shallow: bool,
}

impl Same for Entry {
    fn same(&self, alloc: Global) -> Result<Entry, NoMemory> {
        Ok(Entry {
            key: self.key.copy(alloc)?,
            task: self.task,
            result: self.result,
            needs: self.needs.copy(alloc)?,
            stale: self.stale,
            shallow: self.shallow,
        })
    }
}
