//! What carries out the lines of a session: a book and what is kept, in memory, beside the state's disk.
//!
//! `Shell` is a machine of the session's loop. A line is read by its grammar; it sets an input of the book in memory, builds or
//! explains targets over the book as it is now, or clears the state; or it is a comment, or isn't understood. What each does
//! and what it is answered is `Answers`, and why one isn't answered is `Ends`: relations over a plain record, the scene, in
//! which the disk is seen by its story and its count of faults. So they say the same of every disk.
//!
//! The text of a reply is made before the first commit of its line. So a line whose batches were all committed has its reply.
//! Where memory runs out, all is as it was before the line, or the first batches of its build are in place, if it ran out
//! between them. What is told of builds and explanations holds under every history that what is kept is sound for.
//! `session_stays_sound` says of whole sessions that only files are left which are sound for the history with the books at the
//! lines that build or explain, whatever end comes and wherever a crash cuts it off.
//!
//! A line costs what it does: none reads the book or the state again. The digest of all rules, which no line changes, is
//! worked out at the first line that needs it and known to the book from then on: a state of version 1 needs it, which the
//! first line that builds makes version 2 of. An explanation over such a state makes what it asks about anew.
//!
//! Turned down: a shell that holds its disk, since the disk's last value would have to be taken back out of it; and
//! relations over shell and disk themselves, since each theorem above would speak of one type of disk.
#![tactic(auto)]

mod choices;
mod chosen;
mod inputs;
mod laws;
mod reply;
mod shell;
mod stops;
mod why;

pub use choices::Choices;
pub use laws::{
    end_leaves_sound, lines_stay_sound, session_is_done, session_of_scenes, session_stays_sound,
};
pub use reply::Reply;
pub use shell::Shell;
