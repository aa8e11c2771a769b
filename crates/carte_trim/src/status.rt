ghost use Rattle.std.specs.Prelude.{◌≡◌};
ghost use Rattle.carte_trim.specs.Texts.{code_of};

/// How a run of the program ended.
#[derive(Debug, Drop)]
pub enum Status {
    /// All was done, and all of the reply was handed on.
    Done,
    /// The words aren't a state, a new one, and a count from 1 to 1,000,000.
    Usage,
    /// A write of the reply failed. The new state is whole.
    WriteFault,
    /// A call of the state's device failed.
    StateFault,
    /// The state's file isn't one, from this byte on.
    BadState(u64),
    /// The new file would need so many bytes, which are more than the limit, the second number.
    Full(u64, u64),
    /// There was no memory. Where it was wanted for the reply alone, the new state is whole.
    NoMemory,
    /// The new state's file has more than 9 bytes.
    NotNew,
    /// A call of the new state's device failed.
    NewFault,
    /// The state is of version 1, which is read by a build alone. No call of the new one was made.
    OldState,
}

impl Status {
    /// The program's exit status.
    pub fn code(&self) -> u8
        ensures { result ≡ code_of self.now }
    {
        match self {
            Status::Done => 0,
            Status::Usage => 2,
            Status::WriteFault => 5,
            Status::StateFault => 6,
            Status::BadState(_) => 7,
            Status::Full(_, _) => 8,
            Status::NoMemory => 9,
            Status::NotNew => 17,
            Status::NewFault => 18,
            Status::OldState => 19,
        }
    }
}
