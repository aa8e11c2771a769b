// Why a journal isn't loaded, and why a commit isn't made.
use carte_io::Failed;
use carte_value::NoMemory;
use std::alloc::AllocError;
use thiserror::Error;

/// Why a journal wasn't loaded.
#[derive(Debug, Drop, Error)]
pub enum LoadFault {
    /// A call of the disk failed, and the disk counted it.
    #[error("the disk failed")]
    DiskFault,
    /// The open frame at this offset doesn't lie in the file and within the limit, or the move there doesn't lead
    /// to a bank; 0 where the file is longer than 9 bytes and doesn't begin with the header.
    #[error("bad state at offset {0}")]
    BadState(u64),
    /// There was no memory for the bodies.
    #[error("out of memory")]
    NoMemory,
}

impl From<Failed> for LoadFault {
    ghost use Rattle.std.specs.Prelude.{◌≡◌};
    ghost use Rattle.carte_journal.specs.declared.faults.LoadFault.TheVariants.{DiskFault};

    ghost from_gives = { λ _ fault. fault ≡ DiskFault };

    fn from(_: Failed) -> LoadFault {
        LoadFault::DiskFault
    }
}

impl From<AllocError> for LoadFault {
    ghost use Rattle.std.specs.Prelude.{◌≡◌};
    ghost use Rattle.carte_journal.specs.declared.faults.LoadFault.TheVariants.{NoMemory};

    ghost from_gives = { λ _ fault. fault ≡ NoMemory };

    fn from(_: AllocError) -> LoadFault {
        LoadFault::NoMemory
    }
}

impl From<NoMemory> for LoadFault {
    ghost use Rattle.std.specs.Prelude.{◌≡◌};
    ghost use Rattle.carte_journal.specs.declared.faults.LoadFault.TheVariants.{NoMemory};

    ghost from_gives = { λ _ fault. fault ≡ NoMemory };

    fn from(_: NoMemory) -> LoadFault {
        LoadFault::NoMemory
    }
}

/// Why a body wasn't committed.
#[derive(Debug, Drop, Error)]
pub enum CommitFault {
    /// A call of the disk failed, and the disk counted it. The journal is broken.
    #[error("the disk failed")]
    DiskFault,
    /// The file would need more bytes than the limit. No call of the disk was made.
    #[error("full: {needed} bytes needed, limit {limit}")]
    Full { needed: u64, limit: u64 },
}
