ghost use Rattle.std.specs.Prelude.{◌≡◌};
ghost use Rattle.carte_name.specs.declared.name_fault.NameFault.TheVariants as fault;

use crate::NoMemory;
use std::alloc::AllocError;
use thiserror::Error;

/// Why a text is read as no name.
#[derive(Debug, Drop, Error)]
pub enum NameFault {
    /// It is no such name. The number is the length of its longest prefix that some such name begins with.
    #[error("no name from byte {0} on")]
    BadName(usize),
    #[error("no memory")]
    NoMemory,
}

impl From<AllocError> for NameFault {
    ghost from_gives = { λ _ e. e ≡ fault.NoMemory };

    fn from(_: AllocError) -> NameFault {
        NameFault::NoMemory
    }
}

impl From<NoMemory> for NameFault {
    ghost from_gives = { λ _ e. e ≡ fault.NoMemory };

    fn from(_: NoMemory) -> NameFault {
        NameFault::NoMemory
    }
}
