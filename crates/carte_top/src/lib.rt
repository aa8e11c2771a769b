//! The top call of `carte`: it does all that the program does, and its contract is the program's theorem.
//!
//! The call is generic in the book's source, in the state's disk and in the two sinks, so one proof holds for files and
//! for memory. Its one clause, `IsOutcome`, goes by cases on all statuses: which cause each has, what was committed, and
//! what each sink took. One clause by cases can't forget a status, as one clause for each status could.
//!
//! What the program reads is said outside of the premise that a type tells it: there are bytes that were read, and there
//! is what was found to be kept, also over a real file, of which no proof can say what it holds. Where the type tells,
//! they are what it told. All that goes by what is kept stands under `Under`: where that is sound for some history, and
//! digests are distinct over that and the book, the answer is right. That it is sound is kept by every run, whatever its
//! status and wherever a crash cuts it off (`IsSoundRun`), so a history of runs needs no premise on its files.
//!
//! Which status is due is told once more by the bytes alone (`specs/Due.antt`): the field `complete` says that it comes, but
//! for want of memory and failing devices. It follows from the causes, since each excludes the others; a reader needn't
//! see that.
//!
//! A build commits several batches, one after another. Where it stops between them, for a device's fault, want of room or
//! of memory, those in front stand, and the next build goes on from them. The reply is made as one text before the first
//! commit, so want of memory never comes behind the last. The error line is made as a text too; where there is no memory
//! for it, that is the status. The lines of devices' faults need none: so such a fault is never told as want of memory.
//!
//! A build is told over a book that is had in some way (`BuiltOver`): read, or generated of a seed and a count. So the build of
//! a generated book is carried out and told as any other, with one line in front of its reply.
//!
//! Turned down: books and states as premises of the whole clause, under which a real file would have no theorem at all;
//! and a clause for each command, each of which would say again what a run leaves to its devices.
#![tactic(auto)]

mod book;
mod chosen;
mod generate;
mod laws;
mod one;
mod open;
mod say;
mod session;
mod top;

pub use carte_report::Status;
pub use carte_words::{Command, Word, Words, WordsFault, read_words};
pub use laws::{plain_run_is_due, whole_histories};
pub use say::out_of_memory;
pub use top::carte;
