ghost use Rattle.carte_codec.specs.Parts.{spelled_option, FitsOption};
ghost use Rattle.carte_codec.specs.Laws.{option_one};

use crate::{Spelled, Unread};
use carte_value::NoMemory;
use std::alloc::Global;

/// 0 for None, and else 1 and what there is.
impl<T: Spelled + Drop> Spelled for Option<T> {
    ghost spelling = { spelled_option T.spelling };

    ghost fits = { FitsOption T.fits };

    ghost may = { FitsOption T.may };

    fn write(&self, out: &mut Vec<u8>) -> Result<(), NoMemory> {
        match self {
            None => {
                out.push(0)?;
                Ok(())
            }
            Some(item) => {
                out.push(1)?;
                item.write(out)
            }
        }
    }

    fn read(alloc: Global, bytes: &[u8]) -> Result<(Option<T>, &[u8]), Unread> {
        match bytes {
            [0, rest @ ..] => Ok((None, rest)),
            [1, rest @ ..] => {
                let (item, rest) = T::read(alloc, rest)?;
                Ok((Some(item), rest))
            }
            _ => Err(Unread::NotThere),
        }
    }

    ghost one_spelling = { option_one T.one_spelling };
}
