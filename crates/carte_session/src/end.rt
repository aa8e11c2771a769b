use std::alloc::AllocFailed;
use thiserror::Error;

/// Why a machine didn't answer a line.
#[derive(Clone, Copy, Debug, Drop, Error, PartialEq, Eq)]
pub enum StepEnd {
    /// A call of the disk failed.
    #[error("the state's device failed")]
    DiskFault,
    /// So many bytes would be needed, and the limit.
    #[error("state full")]
    StateFull(u64, u64),
    /// There was no memory.
    #[error("out of memory")]
    NoMemory,
}

/// Why a session ended before its script did.
#[derive(Clone, Copy, Debug, Drop, Error, PartialEq, Eq)]
pub enum SessionEnd {
    /// A call of the script's source failed. All whole lines before are carried out.
    #[error("a read failed")]
    ReadFault,
    /// A call of the sink failed. The machine has carried out the line whose reply this was, and none behind it.
    #[error("a write failed")]
    WriteFault,
    /// The script has more bytes than the limit; one more than that was taken. All whole lines within it are carried out.
    #[error("the script has more bytes than the limit")]
    TooLong,
    /// There was no memory for a line. All lines before are carried out.
    #[error("out of memory")]
    NoMemory,
    /// The machine didn't answer a line. All lines before are answered.
    #[error("a line was not answered")]
    Machine(StepEnd),
}

impl From<carte_value::NoMemory> for StepEnd {
    ghost use Rattle.std.specs.Prelude.{◌≡◌};
    ghost use Rattle.carte_session.specs.declared.end.StepEnd.TheVariants.{NoMemory as OutOfMemory};

    ghost from_gives = { λ _ end. end ≡ OutOfMemory };

    fn from(_: carte_value::NoMemory) -> StepEnd {
        StepEnd::NoMemory
    }
}

impl From<StepEnd> for SessionEnd {
    ghost use Rattle.std.specs.Prelude.{◌≡◌};
    ghost use Rattle.carte_session.specs.declared.end.SessionEnd.TheVariants.{Machine};

    ghost from_gives = { λ end session_end. session_end ≡ Machine end };

    fn from(end: StepEnd) -> SessionEnd {
        SessionEnd::Machine(end)
    }
}

impl<T: Drop> From<AllocFailed<T>> for SessionEnd {
    ghost use Rattle.std.specs.Prelude.{◌≡◌};
    ghost use Rattle.carte_session.specs.declared.end.SessionEnd.TheVariants.{NoMemory};

    ghost from_gives = { λ _ session_end. session_end ≡ NoMemory };

    fn from(_: AllocFailed<T>) -> SessionEnd {
        SessionEnd::NoMemory
    }
}
