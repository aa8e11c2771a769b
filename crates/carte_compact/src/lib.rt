//! The live information of a state: all that is kept, in as few bytes as can say it. What a state file grows by, and what
//! counts no longer, is left out: of the links and entries of a name all but the one that is found, of equal traces all
//! but the last, and all marks that were taken off.
//!
//! It is a list of batches, so that what reads a state file reads this too: none where nothing is kept, and else one, with
//! the keys that are stale behind the entries, since the entries of a batch have no mark. Of nothing it makes just what is
//! kept (`live_is_kept`). Names and values stand in an order of their own there, so that the bytes are told by what is
//! kept, but for the order of traces.
//!
//! Names are put in order and each looked up again in the tables that the lists have: so no list of entries is sorted,
//! and nothing is held but names. Equal traces are told by a set of those that come later, since a key that often comes
//! back to the same ends has thousands, and to compare them in pairs is quadratic. Turned down: a rewriting that goes by
//! the bytes of the file, which would have to know of each body what of it still counts.
//!
//! `rewrite` puts the live information in the place of all that stands in a file: what comes of it is `Rewrites` in
//! `specs/Rewriting.antt`, in the form of a state's `Applies`, so that a commit behind it is told by both, one after
//! another (`steps_behind`). Whether a rewriting is due before a commit is the rule `is_due` in `specs/Due.antt`, over the
//! live length. That is a pass over all that is kept, so it is made only where no lower bound decides: the lists know how
//! many bytes they take, and of traces at least how many those take of which no equal one comes later (`least_length`),
//! which each pass that is made lets them know anew.
//! Turned down: a rewriting at each build, which would write as much for one key as for all; and a live length that the
//! state holds and each batch changes, since what a trace adds hangs on whether an equal one is kept, which is looked up
//! only among few.
#![tactic(auto)]

mod batches;
mod bodies;
mod content;
mod due;
mod entries;
mod latest;
mod laws;
mod least;
mod lengths;
mod names;
mod rewriting;
mod values;

pub use batches::live;
pub use bodies::live_bodies;
pub use due::is_due;
pub use laws::{
    due_has_room, kept_throughout, live_is_kept, one_live, stations_behind, steps_behind,
};
pub use least::least_length;
pub use lengths::live_length;
pub use rewriting::{rewrite, rewriting_needs};
