ghost use Rattle.std.specs.Prelude.{◌≡◌};
ghost use Rattle.carte_value.specs.declared.text_fault.TextFault.TheVariants as fault;

use crate::NoMemory;
use std::alloc::AllocError;
use thiserror::Error;

/// Why a text is no text value.
#[derive(Debug, Drop, Error)]
pub enum TextFault {
    /// It has this many bytes, and at most 65,536 are allowed.
    #[error("a text of {0} bytes")]
    TooLong(usize),
    #[error("no memory")]
    NoMemory,
}

impl From<AllocError> for TextFault {
    ghost from_gives = { λ _ e. e ≡ fault.NoMemory };

    fn from(_: AllocError) -> TextFault {
        TextFault::NoMemory
    }
}

impl From<NoMemory> for TextFault {
    ghost from_gives = { λ _ e. e ≡ fault.NoMemory };

    fn from(_: NoMemory) -> TextFault {
        TextFault::NoMemory
    }
}
