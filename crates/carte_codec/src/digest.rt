ghost use Rattle.carte_codec.specs.Parts.{spelled_digest, FitsDigest};
ghost use Rattle.carte_codec.specs.Laws.{digest_one};

use crate::{Spelled, Unread};
use carte_value::{Digest, NoMemory};
use std::alloc::Global;

/// Its 32 bytes.
impl Spelled for Digest {
    ghost spelling = { spelled_digest };

    ghost fits = { FitsDigest };

    ghost may = { λ _. Unit {0} };

    fn write(&self, out: &mut Vec<u8>) -> Result<(), NoMemory> {
        out.extend_from_slice(self.0.as_slice())?;
        Ok(())
    }

    fn read(_alloc: Global, bytes: &[u8]) -> Result<(Digest, &[u8]), Unread> {
        match bytes.split_first_chunk::<32>() {
            Some((digest, rest)) => Ok((Digest(*digest), rest)),
            None => Err(Unread::NotThere),
        }
    }

    ghost one_spelling = { digest_one };
}
