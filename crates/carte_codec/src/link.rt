ghost use Rattle.carte_codec.specs.Parts.{spelled_link, FitsLink};
ghost use Rattle.carte_codec.specs.Laws.{link_one};

use crate::{Spelled, Unread};
use carte_value::{Digest, Link, Name, NoMemory};
use std::alloc::Global;

/// The name and the digest.
impl Spelled for Link {
    ghost spelling = { spelled_link };

    ghost fits = { FitsLink };

    ghost may = { λ _. Unit {0} };

    fn write(&self, out: &mut Vec<u8>) -> Result<(), NoMemory> {
        self.name.write(out)?;
        self.digest.write(out)
    }

    fn read(alloc: Global, bytes: &[u8]) -> Result<(Link, &[u8]), Unread> {
        match <(Name, Digest)>::read(alloc, bytes) {
            Ok(((name, digest), rest)) => Ok((Link { name, digest }, rest)),
            Err(unread) => Err(unread),
        }
    }

    ghost one_spelling = { link_one };
}
