//! What the program says: the statuses with their numbers, the error lines, the reply of a build, the
//! line before that of a generated book, the replies to the lines of a session, and the lines of an explanation.
//!
//! Every text that a user sees stands here, so that its wording is found in one place and nothing else of the program
//! is stated by bytes. Each is a function of what it tells (`specs/Texts`, `specs/Reply`): a status, or the targets with
//! their values and the counts. The crate knows no book, no state and no device; what ran and what the values are is
//! said by its caller.
//!
//! A text is made whole before its first byte is handed on, so want of memory leaves no half of one. Turned down: texts
//! written piece by piece to a sink, which would spare their memory, but then an answer could end in the middle of a
//! line. The line that tells of want of memory is a constant, and needs none.
//!
//! A status has its cause in it, as the fault or the path that it names, so that one function gives the line of each.
//! Turned down: `Display` of the errors themselves, since a line needs the printed form of names and keys, which takes
//! memory that a formatter can't ask for.
#![tactic(auto)]

mod book_texts;
mod lines;
mod pieces;
mod replies;
mod status;
mod texts;

pub use lines::{cleaned_line, not_set_line, refused_line, set_line, stray_line, why_line};
pub use replies::{keys_line, reply};
pub use status::Status;
pub use texts::{error_line, memory_line};
