ghost use Rattle.carte_record_one.specs.Bodies.{spelled_trace, FitsTrace};
ghost use Rattle.carte_record_one.specs.BodyLaws.{trace_one};

use crate::TraceOne;
use carte_codec::{Spelled, Unread};
use carte_value::{Digest, Links, Name, NoMemory, SharedLinks};
use std::alloc::Global;

/// The key, its links, and the digest of the result.
impl Spelled for TraceOne {
    ghost spelling = { spelled_trace };

    ghost fits = { FitsTrace };

    ghost may = { λ _. Unit {0} };

    fn write(&self, out: &mut Vec<u8>) -> Result<(), NoMemory> {
        self.key.write(out)?;
        self.links.list().write(out)?;
        self.result.write(out)
    }

    fn read(alloc: Global, bytes: &[u8]) -> Result<(TraceOne, &[u8]), Unread> {
        match <(Name, (Links, Digest))>::read(alloc, bytes) {
            Ok(((key, (links, result)), rest)) => {
                let links = SharedLinks::of(alloc, links)?;
                Ok((TraceOne { key, links, result }, rest))
            }
            Err(unread) => Err(unread),
        }
    }

    ghost one_spelling = { trace_one };
}
