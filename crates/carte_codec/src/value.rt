ghost use Rattle.carte_value.specs.Spelling.{spelling, IsValue};
ghost use Rattle.carte_codec.specs.Laws.{value_one};

use crate::{Spelled, Unread};
use carte_value::{NoMemory, Value, every_value};
use std::alloc::Global;

/// The spelling whose digest is the value's.
impl Spelled for Value {
    ghost spelling = { spelling };

    ghost fits = { IsValue };

    ghost may = { λ _. Unit {0} };

    fn write(&self, out: &mut Vec<u8>) -> Result<(), NoMemory> {
        every_value(self);
        Value::write(self, out)
    }

    fn read(alloc: Global, bytes: &[u8]) -> Result<(Value, &[u8]), Unread> {
        match Value::decode(alloc, bytes)? {
            Some((value, length)) => Ok((value, bytes.split_at(length).1)),
            None => Err(Unread::NotThere),
        }
    }

    ghost one_spelling = { value_one };
}
