//! Trimming: a small state out of a large or full one, in a new file.
//!
//! What grows in a plain history of edits are the traces, and old ones help only where inputs come back to what they were.
//! So of each key and each kind of trace the newest different ones are kept, as many as are asked for, with all entries,
//! seen inputs, marks and the chain, and those values of the store that these name: `IsTrimmed` in `specs/Trimmed.antt`. It
//! is said of what is kept as functions, so there is one such thing (`one_trimmed`). It is sound for each history for which
//! what is kept is, a build begins with it as with that, and a key that is held by its entry, or by one of its newest
//! traces, is held as before; no other is. These laws stand alone and are contracts of functions that do nothing.
//!
//! `trim` is the top call of the program: `IsOutcome` in `specs/Whole.antt` says all that a run does. `trimmed` works on the
//! live information of `carte_compact`, where of equal traces one is left already: it cuts the one batch of that and takes
//! it into nothing kept. Which traces are the newest is told by the table of places that a list of traces has, so
//! no trace is compared with another. The values are found by the digests that name them.
//!
//! The new file gets a frame that brings nothing, and then a rewriting puts a region with all bodies in its place: so in
//! however many batches it is, each image keeps nothing or all of it (`Plan`). The room is looked at before the first call.
//!
//! A state of version 1 isn't trimmed: only its book tells the tasks of what it keeps, and no book is read here. It has a
//! status of its own, `OldState`, and a build makes it one of version 2. Turned down: a copy in version 1, since nothing
//! writes that version any more.
//!
//! Turned down: cutting the lists as they were read, which have equal traces and entries that no longer count, so that what
//! is counted would have to be told apart first; a definition by lists, which would say in which order a file has them; and
//! a trim in place, which would have to find room beside what it takes away, where the state is full.
#![tactic(auto)]

mod answer;
mod cut;
mod laws;
mod make;
mod named;
mod newest;
mod plan;
mod run;
mod say;
mod status;
mod top;
mod trimmed;
mod words;
mod write;

pub use laws::{
    held_as_before, none_newly_held, one_trimmed, trimmed_begins, trimmed_is_sound, trims_between,
};
pub use say::out_of_memory;
pub use status::Status;
pub use top::trim;
pub use words::count_of;
