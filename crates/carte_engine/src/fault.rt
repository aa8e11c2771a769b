use carte_book::Reason;
use carte_state::ApplyFault;
use thiserror::Error;

/// Why a build has no values to show.
#[derive(Debug, Drop, Error)]
pub enum BuildFault {
    /// Some target has no value. What was finished is kept.
    #[error("the build is refused")]
    Refused(Reason),
    /// A call of the disk failed, and the disk counted it. The engine is broken.
    #[error("the state's device failed")]
    DiskFault,
    /// With a batch the state would need more bytes than its limit. Those in front of it were put.
    #[error("state full: {needed} bytes needed, limit {limit}")]
    StateFull { needed: u64, limit: u64 },
    /// There was no memory. Batches that were put before stay.
    #[error("out of memory")]
    NoMemory,
}

impl From<carte_value::NoMemory> for BuildFault {
    ghost use Rattle.std.specs.Prelude.{◌≡◌};
    ghost use Rattle.carte_engine.specs.declared.fault.BuildFault.TheVariants.{NoMemory as OutOfMemory};

    ghost from_gives = { λ _ fault. fault ≡ OutOfMemory };

    fn from(_: carte_value::NoMemory) -> BuildFault {
        BuildFault::NoMemory
    }
}

impl From<ApplyFault> for BuildFault {
    ghost use Rattle.std.specs.Prelude.{◌≡◌};
    ghost use Rattle.carte_engine.specs.Faults.{fault_of};

    ghost from_gives = { λ fault made. made ≡ fault_of fault };

    fn from(fault: ApplyFault) -> BuildFault {
        match fault {
            ApplyFault::DiskFault => BuildFault::DiskFault,
            ApplyFault::Full { needed, limit } => BuildFault::StateFull { needed, limit },
            ApplyFault::NoMemory => BuildFault::NoMemory,
        }
    }
}
