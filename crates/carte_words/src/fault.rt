ghost use Rattle.std.specs.Prelude.{◌≡◌};
ghost use Rattle.carte_words.specs.declared.fault.WordsFault.TheVariants as fault;

use crate::Word;
use carte_value::NoMemory;
use std::alloc::AllocError;

/// Why words ask for nothing: the first of these, in this order.
#[derive(Debug, Drop)]
pub enum WordsFault {
    /// They are no words of the command: one is missing or too many, an option isn't known or stands twice, or its
    /// value is none of those that it may have.
    Words,
    /// There is no key to build.
    NoTarget,
    /// There are keys where the command takes none.
    TargetsNotTaken,
    /// There are no two numbers, of which the first may be the seed of a generated book and the second its count of keys.
    SeedAndCount,
    /// The first target that is no name of the book's kind.
    BadTarget(Word),
    /// There are several workers, and the scheduler isn't the suspending one.
    WorkersNeedSuspending,
    /// There was no memory for them. It may come in place of any answer.
    NoMemory,
}

impl From<NoMemory> for WordsFault {
    ghost from_gives = { λ _ e. e ≡ fault.NoMemory };

    fn from(_: NoMemory) -> WordsFault {
        WordsFault::NoMemory
    }
}

impl From<AllocError> for WordsFault {
    ghost from_gives = { λ _ e. e ≡ fault.NoMemory };

    fn from(_: AllocError) -> WordsFault {
        WordsFault::NoMemory
    }
}
