ghost use Rattle.std.specs.Prelude.{◌≡◌, ◌++◌, ℕ, List, OnOk};
ghost use Rattle.carte_value.specs.Lists.{Begins};
ghost use Rattle.carte_codec.specs.Spellings.{IsRead, OneSpelling};

use crate::Unread;
use carte_value::NoMemory;
use std::alloc::Global;

/// What is spelled in bytes, and read again from bytes that begin with its spelling.
pub trait Spelled: Sized {
    ghost spelling: { Self → List ℕ };

    /// It can be read again. That every value of a type does is known only to code that has asked the value, so `write` says it.
    ghost fits: { Self → Type 0 };

    /// What a caller keeps to, so that it fits.
    ghost may: { Self → Type 0 };

    /// Puts the spelling behind `out`. Where there is no memory, a part of it, or another's, may stand there.
    fn write(&self, out: &mut Vec<u8>) -> Result<(), NoMemory>
        ensures bytes { OnOk result (out.new.items ≡ out.old.items ++ spelling self.now) }
        ensures fits { OnOk result (may self.now → fits self.now) }
        ensures front { Begins out.old.items out.new.items };

    /// What the bytes begin with, and the bytes behind it.
    fn read(alloc: Global, bytes: &[u8]) -> Result<(Self, &[u8]), Unread>
        ensures { IsRead spelling fits (λ x. (x.0, x.1.now)) bytes.now result };

    ghost one_spelling: { OneSpelling spelling fits };
}
