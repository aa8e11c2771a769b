//! Words: what the command line asks for, and what a line of a script asks for.
//!
//! The words of the command line are taken by one simple command of the crate `clap`. Which words it takes, and what
//! they are the values of, is that crate's definition, at a command that `specs/` writes out; what the values mean is
//! ours. So the meaning of words is a function (`words_of`), and `read_words` answers exactly what it gives. The
//! values that an option may have stand in one table each, and clap reads them as any text: as possible values of
//! clap's they would be references in the command's definition, and it could not be written out. A value in no table
//! gives the same fault.
//!
//! A line of a script means what a relation says, since the value of a text is one (`Means`). That a line has one
//! meaning at most is a law (`one_meaning`), and `read_line` answers `None` exactly where it has none. Lines are cut at
//! spaces and tabs alone. std's white space has more characters, and would let names be parted that aren't.
//!
//! A word is a text of its own type, which `carte` hands through to the file that it names.
#![tactic(auto)]

mod asked;
mod choices;
mod cuts;
mod fault;
mod laws;
mod line;
mod numbers;
mod parse;
mod script;
mod tables;
mod targets;
mod word;
mod words;

pub use asked::read_words;
pub use fault::WordsFault;
pub use laws::one_meaning;
pub use line::Line;
pub use script::read_line;
pub use word::Word;
pub use words::{Command, Rebuilder4, Scheduler4, Words};
