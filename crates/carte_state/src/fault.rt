ghost use Rattle.std.specs.Prelude.{◌≡◌, ℕ};

use carte_journal::CommitFault;
use carte_value::NoMemory;
use thiserror::Error;

/// Why a batch wasn't applied.
#[derive(Debug, Drop, Error)]
pub enum ApplyFault {
    /// A call of the disk failed, and the disk counted it. The state is broken.
    #[error("the disk failed")]
    DiskFault,
    /// The file would need more bytes than the limit. Nothing has changed, and no call of the disk was made.
    #[error("full: {needed} bytes needed, limit {limit}")]
    Full { needed: u64, limit: u64 },
    /// There was no memory. Nothing has changed, and no call of the disk was made.
    #[error("out of memory")]
    NoMemory,
}

impl ApplyFault {
    /// What a commit's fault is to a caller of the state.
    pub fn of(fault: CommitFault) -> ApplyFault
        ensures disk { fault ≡ CommitFault.DiskFault → result ≡ ApplyFault.DiskFault }
        ensures full { (needed limit : ℕ) → fault ≡ CommitFault.Full needed limit → result ≡ ApplyFault.Full needed limit }
    {
        match fault {
            CommitFault::DiskFault => ApplyFault::DiskFault,
            CommitFault::Full { needed, limit } => ApplyFault::Full { needed, limit },
        }
    }
}

impl From<NoMemory> for ApplyFault {
    ghost use Rattle.std.specs.Prelude.{◌≡◌};
    ghost use Rattle.carte_state.specs.declared.fault.ApplyFault.TheVariants.{NoMemory as OutOfMemory};

    ghost from_gives = { λ _ fault. fault ≡ OutOfMemory };

    fn from(_: NoMemory) -> ApplyFault {
        ApplyFault::NoMemory
    }
}
