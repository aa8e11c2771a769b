ghost use Rattle.carte_record_one.specs.Bodies.{spelled_entry, FitsEntry, IsUnmarked};
ghost use Rattle.carte_record_one.specs.BodyLaws.{entry_one};

use crate::EntryOne;
use carte_codec::{Spelled, Unread};
use carte_value::{Digest, Name, Names, NoMemory};
use std::alloc::Global;

/// The key, the digest of its value, whether it is shallow, and the names that it needs. An entry that is read isn't stale.
impl Spelled for EntryOne {
    ghost spelling = { spelled_entry };

    ghost fits = { FitsEntry };

    ghost may = { IsUnmarked };

    fn write(&self, out: &mut Vec<u8>) -> Result<(), NoMemory> {
        self.key.write(out)?;
        self.result.write(out)?;
        self.shallow.write(out)?;
        self.needs.write(out)
    }

    fn read(alloc: Global, bytes: &[u8]) -> Result<(EntryOne, &[u8]), Unread> {
        match <(Name, (Digest, (bool, Names)))>::read(alloc, bytes) {
            Ok(((key, (result, (shallow, needs))), rest)) => {
                let entry = EntryOne {
                    key,
                    result,
                    needs,
                    stale: false,
                    shallow,
                };
                Ok((entry, rest))
            }
            Err(unread) => Err(unread),
        }
    }

    ghost one_spelling = { entry_one };
}
