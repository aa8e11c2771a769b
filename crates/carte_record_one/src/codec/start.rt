ghost use Rattle.carte_record_one.specs.Bodies.{spelled_start, FitsStart};
ghost use Rattle.carte_record_one.specs.BodyLaws.{start_one};

use crate::StartOne;
use carte_codec::{Spelled, Unread};
use carte_value::{Digest, NoMemory};
use std::alloc::Global;

/// 0 to go on, 1 and the digest of the rules to begin anew, 2 where all was cleared.
impl Spelled for StartOne {
    ghost spelling = { spelled_start };

    ghost fits = { FitsStart };

    ghost may = { λ _. Unit {0} };

    fn write(&self, out: &mut Vec<u8>) -> Result<(), NoMemory> {
        match self {
            StartOne::GoOn => out.push(0)?,
            StartOne::Anew(rules) => {
                out.push(1)?;
                rules.write(out)?;
            }
            StartOne::Cleared => out.push(2)?,
        }
        Ok(())
    }

    fn read(alloc: Global, bytes: &[u8]) -> Result<(StartOne, &[u8]), Unread> {
        match bytes {
            [0, rest @ ..] => Ok((StartOne::GoOn, rest)),
            [1, rest @ ..] => {
                let (rules, rest) = Digest::read(alloc, rest)?;
                Ok((StartOne::Anew(rules), rest))
            }
            [2, rest @ ..] => Ok((StartOne::Cleared, rest)),
            _ => Err(Unread::NotThere),
        }
    }

    ghost one_spelling = { start_one };
}
