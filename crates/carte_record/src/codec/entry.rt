ghost use Rattle.carte_record.specs.Bodies.{spelled_entry, FitsEntry, IsUnmarked};
ghost use Rattle.carte_record.specs.BodyLaws.{entry_one};

use crate::Entry;
use carte_codec::{Spelled, Unread};
use carte_value::{Digest, Name, Names, NoMemory};
use std::alloc::Global;

/// The key, the digests of its task and of its value, whether it is shallow, and the names that it needs. An entry that
/// is read isn't stale.
impl Spelled for Entry {
    ghost spelling = { spelled_entry };

    ghost fits = { FitsEntry };

    ghost may = { IsUnmarked };

    fn write(&self, out: &mut Vec<u8>) -> Result<(), NoMemory> {
        self.key.write(out)?;
        self.task.write(out)?;
        self.result.write(out)?;
        self.shallow.write(out)?;
        self.needs.write(out)
    }

    fn read(alloc: Global, bytes: &[u8]) -> Result<(Entry, &[u8]), Unread> {
        match <(Name, (Digest, (Digest, (bool, Names))))>::read(alloc, bytes) {
            Ok(((key, (task, (result, (shallow, needs)))), rest)) => {
                let entry = Entry {
                    key,
                    task,
                    result,
                    needs,
                    stale: false,
                    shallow,
                };
                Ok((entry, rest))
            }
            Err(unread) => Err(unread),
        }
    }

    ghost one_spelling = { entry_one };
}
