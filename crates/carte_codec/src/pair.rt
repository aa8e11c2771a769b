ghost use Rattle.carte_codec.specs.Parts.{spelled_pair, FitsPair};
ghost use Rattle.carte_codec.specs.Laws.{pair_one};

use crate::{Spelled, Unread};
use carte_value::NoMemory;
use std::alloc::Global;

/// One after the other.
impl<A: Spelled + Drop, B: Spelled + Drop> Spelled for (A, B) {
    ghost spelling = { spelled_pair A.spelling B.spelling };

    ghost fits = { FitsPair A.fits B.fits };

    ghost may = { FitsPair A.may B.may };

    fn write(&self, out: &mut Vec<u8>) -> Result<(), NoMemory> {
        self.0.write(out)?;
        self.1.write(out)
    }

    fn read(alloc: Global, bytes: &[u8]) -> Result<((A, B), &[u8]), Unread> {
        let (first, rest) = A::read(alloc, bytes)?;
        let (second, rest) = B::read(alloc, rest)?;
        Ok(((first, second), rest))
    }

    ghost one_spelling = { pair_one A.one_spelling B.one_spelling };
}
