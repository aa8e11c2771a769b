ghost use Rattle.carte_record.specs.Bodies.{spelled_trace, FitsTrace};
ghost use Rattle.carte_record.specs.BodyLaws.{trace_one};

use crate::Trace;
use carte_codec::{Spelled, Unread};
use carte_value::{Digest, Links, Name, NoMemory, SharedLinks};
use std::alloc::Global;

/// The key, the digest of its task, its links, and the digest of the result.
impl Spelled for Trace {
    ghost spelling = { spelled_trace };

    ghost fits = { FitsTrace };

    ghost may = { λ _. Unit {0} };

    fn write(&self, out: &mut Vec<u8>) -> Result<(), NoMemory> {
        self.key.write(out)?;
        self.task.write(out)?;
        self.links.list().write(out)?;
        self.result.write(out)
    }

    fn read(alloc: Global, bytes: &[u8]) -> Result<(Trace, &[u8]), Unread> {
        match <(Name, (Digest, (Links, Digest)))>::read(alloc, bytes) {
            Ok(((key, (task, (links, result))), rest)) => {
                let links = SharedLinks::of(alloc, links)?;
                let trace = Trace {
                    key,
                    task,
                    links,
                    result,
                };
                Ok((trace, rest))
            }
            Err(unread) => Err(unread),
        }
    }

    ghost one_spelling = { trace_one };
}
