//! The engine: builds over a state, each with a scheduler and a rebuilder that are chosen for it alone.
//!
//! A build is a plan and its commits. The plan begins with what is kept, its stale entries marked and the names dropped
//! that became something else, lets the scheduler work over that, and makes of what was finished an answer and the batches,
//! 256 keys each, with the new chain in the last where the scheduler makes one. The marks are put on where the entries
//! stand, and taken off again whatever comes of the work; only where names are dropped it works over a marked copy without
//! them, as seldom happens. So a plan has no disk and leaves all as it was, list for list.
//! A commit puts the batches into the state one after another, each whole or not at all; an empty one makes no call. So a
//! build that brings nothing new writes nothing, a refused one keeps what it finished and marked, and one that is cut off
//! keeps the batches that were put: over those the next build goes on. `clean` commits a batch that clears the state.
//!
//! What is kept of version 1 is read by the book that is built, and the first batch of a plan makes version 2 of it: so
//! the first commit of a build migrates the state, and a preview or an explanation only looks at what would become of it.
//!
//! What is known of an answer holds under every history that what is kept is sound for, in its version, which each clause
//! ranges over: that is no invariant of a type, since the digests of that very history have to differ too. A new state is
//! sound for any history, and whichever batches of a build are put, it stays so for the history with one book more
//! (`plan_is_sound`, `history_is_right`). Over kept information of another origin a build still ends, and its answer shows
//! an end of its scheduler's build (`ShowsBuild`): the values of inputs and of the keys that this finished, with no promise
//! what these are. Where rules are begun anew, how many starts were given up is told by a ledger that stands in the clause
//! alone: a number can't say the bound of each rule.
//!
//! The values of the targets come from the book and the finished keys by look-ups, those that ran are sorted where they are
//! listed, and each other list is gone through once: no step grows faster than n log n.
//!
//! Turned down: a commit of each key as it is finished, which syncs the disk for each, and needs the disk where tasks run;
//! a plan that holds the state, so that no other one could be made before its commit; a marked copy of what is kept for
//! each build; a migration as the state is loaded, before a book is known; and a scheduler or a rebuilder as part of the
//! engine's type, as each build may choose anew.
#![tactic(auto)]

mod answer;
mod basis;
mod build;
mod clear;
mod commit;
mod engine;
mod fault;
mod laws;
mod planned;
mod preview;
mod ran;
mod reckon;
mod scheduler;

pub use answer::{Answer, Built, Plan};
pub use carte_state::{ApplyFault, LoadFault};
pub use engine::Engine;
pub use fault::BuildFault;
pub use laws::{history_is_right, plan_is_sound, plan_keeps, served_or_refused};
pub use ran::Ran;
pub use scheduler::Scheduler;
