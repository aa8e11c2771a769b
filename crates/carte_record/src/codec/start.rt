ghost use Rattle.carte_record.specs.Bodies.{spelled_start, FitsStart};
ghost use Rattle.carte_record.specs.BodyLaws.{start_one};

use crate::Start;
use carte_codec::{Spelled, Unread};
use carte_value::NoMemory;
use std::alloc::Global;

/// 0 to go on, 2 where all was cleared. (1 was for rules that had changed, in version 1.)
impl Spelled for Start {
    ghost spelling = { spelled_start };

    ghost fits = { FitsStart };

    ghost may = { λ _. Unit {0} };

    fn write(&self, out: &mut Vec<u8>) -> Result<(), NoMemory> {
        match self {
            Start::GoOn => out.push(0)?,
            Start::Cleared => out.push(2)?,
        }
        Ok(())
    }

    fn read(_alloc: Global, bytes: &[u8]) -> Result<(Start, &[u8]), Unread> {
        match bytes {
            [0, rest @ ..] => Ok((Start::GoOn, rest)),
            [2, rest @ ..] => Ok((Start::Cleared, rest)),
            _ => Err(Unread::NotThere),
        }
    }

    ghost one_spelling = { start_one };
}
