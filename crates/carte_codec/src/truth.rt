ghost use Rattle.std.specs.Prelude.{◌≡◌};
ghost use Rattle.carte_codec.specs.Parts.{spelled_bool};
ghost use Rattle.carte_codec.specs.Laws.{bool_one};

use crate::{Spelled, Unread};
use carte_value::NoMemory;
use std::alloc::Global;

/// 0 for false and 1 for true.
impl Spelled for bool {
    ghost spelling = { spelled_bool };

    ghost fits = { λ _. Unit {0} };

    ghost may = { λ _. Unit {0} };

    fn write(&self, out: &mut Vec<u8>) -> Result<(), NoMemory> {
        out.push(if *self { 1 } else { 0 })?;
        Ok(())
    }

    fn read(_alloc: Global, bytes: &[u8]) -> Result<(bool, &[u8]), Unread> {
        match bytes {
            [0, rest @ ..] => Ok((false, rest)),
            [1, rest @ ..] => Ok((true, rest)),
            _ => Err(Unread::NotThere),
        }
    }

    ghost one_spelling = { bool_one };
}
