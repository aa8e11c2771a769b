ghost use Rattle.std.specs.Prelude.{◌≡◌};
ghost use Rattle.carte_report.specs.Status.{code_of};

use carte_book::{BookFault, Reason};
use carte_words::WordsFault;

/// How a run of the program ended.
#[derive(Debug, Drop)]
pub enum Status {
    /// All was done, and all of the reply was handed on.
    Done,
    BookRefused(BookFault),
    Usage(WordsFault),
    /// Some target has no value. What was finished is kept.
    BuildRefused(Reason),
    /// A read of the book failed.
    ReadFault,
    /// A write of the reply failed. What was built is kept.
    WriteFault,
    /// A call of the state's device failed.
    DiskFault,
    /// The state's file isn't one, from this byte on.
    BadState(u64),
    /// The state's file would need so many bytes, which are more than the limit, the second number.
    StateFull(u64, u64),
    NoMemory,
    /// The script has more than 67,108,864 bytes. All whole lines within these were carried out.
    ScriptTooLong,
}

impl Status {
    /// The program's exit status.
    pub fn code(&self) -> u8
        ensures { result ≡ code_of self.now }
    {
        match self {
            Status::Done => 0,
            Status::BookRefused(_) => 1,
            Status::Usage(_) => 2,
            Status::BuildRefused(_) => 3,
            Status::ReadFault => 4,
            Status::WriteFault => 5,
            Status::DiskFault => 6,
            Status::BadState(_) => 7,
            Status::StateFull(_, _) => 8,
            Status::NoMemory => 9,
            Status::ScriptTooLong => 10,
        }
    }
}
