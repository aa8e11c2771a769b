//! Migration: what was kept in version 1 of the state file, as what is kept today.
//!
//! Version 1 keeps the digest of all rules, and no tasks. Where these are the rules of the book that is to be built, each
//! entry and each trace gets the task that its key has in that book; where they are others, nothing is kept. That it
//! stays sound is a law of `carte_sound_one` (`up_is_sound`). Deep traces aren't kept, since they don't name the rules
//! beneath their key. Turned down: to give them these from the entries, which may be of several books.
//!
//! `raise` gives what is kept then, for whoever only looks. `up` gives it as one batch that begins cleared, by which the
//! file becomes one of version 2: it is the live information of what is kept, as a rewriting would write it, so nothing
//! stands in it twice and the file gets no more bytes than it needs. Turned down: a walk of its own over the old lists,
//! which would put names in order and drop what no longer counts a second time.
//!
//! The task of a key is worked out once, for its entry; its traces take it from there. What is kept is copied twice, for
//! what is raised and for the batch, but traces share their links.
#![tactic(auto)]

mod batch;
mod entries;
mod kept;
mod tasks;
mod traces;
mod values;

pub use batch::up;
pub use kept::raise;
