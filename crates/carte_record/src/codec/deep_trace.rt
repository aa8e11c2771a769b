ghost use Rattle.carte_record.specs.Bodies.{spelled_deep, FitsDeep};
ghost use Rattle.carte_record.specs.BodyLaws.{deep_one};

use crate::DeepTrace;
use carte_codec::{Spelled, Unread};
use carte_value::{Digest, Links, Name, NoMemory};
use std::alloc::Global;

/// The key, the rules beneath it with the digests of their tasks, its links, and the digest of the result.
impl Spelled for DeepTrace {
    ghost spelling = { spelled_deep };

    ghost fits = { FitsDeep };

    ghost may = { λ _. Unit {0} };

    fn write(&self, out: &mut Vec<u8>) -> Result<(), NoMemory> {
        self.key.write(out)?;
        self.tasks.write(out)?;
        self.links.write(out)?;
        self.result.write(out)
    }

    fn read(alloc: Global, bytes: &[u8]) -> Result<(DeepTrace, &[u8]), Unread> {
        match <(Name, (Links, (Links, Digest)))>::read(alloc, bytes) {
            Ok(((key, (tasks, (links, result))), rest)) => {
                let trace = DeepTrace {
                    key,
                    tasks,
                    links,
                    result,
                };
                Ok((trace, rest))
            }
            Err(unread) => Err(unread),
        }
    }

    ghost one_spelling = { deep_one };
}
