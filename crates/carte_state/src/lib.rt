//! The state: what is kept from one build to the next, in a file that no crash spoils.
//!
//! A state is a journal and what its bodies make of nothing, one after another: each body is a batch, a change of what is
//! kept. `load` reads a file; `apply` puts one batch in, on the disk and in memory. So what a file keeps is a relation on
//! its bytes, `Keeps` in `specs/Folding.antt`, of which a law says that there is one such thing at most (`keeps_one`).
//!
//! Bodies are of version 1 or of version 2, which their first byte tells. Those of version 1 are only read: `old` gives
//! what they make, and the first batch that is applied begins cleared and is of version 2, as are all behind it. Turned
//! down: to read them as batches of version 2, whose entries and traces have a task that version 1 doesn't know. Of
//! version 2 there are two kinds, 3 and 4, of which 4 alone is written: 3 is read without its deep traces, since these
//! don't name the rules beneath their key. Nothing else is lost then, so such a state is none of version 1, and a body of
//! kind 4 may stand behind it as it is.
//!
//! `load_by` reads the bodies in neighbouring parts, each on a thread of its own. Parts have as many bytes, since the first
//! body often has most. Then batches of kind 4 are cut into columns, lists that don't touch one another, and each column
//! is put together in their order on a thread of its own; other kinds come one after another. Turned down: a pool of
//! threads, which would need a lock, and what is kept for each part, which would have to be put together name by name.
//!
//! A step of `apply` is what its batch makes: at each moment an image of the file keeps what was kept before it or after
//! it, and once its calls have passed, what was kept after it. A run of batches is such steps one after another, and a
//! history of runs, each over an image that the one before left, is `history_keeps`. A rewriting puts a region in the
//! place of all bodies, which makes of nothing what is kept: so it is a step from that to the same.
//!
//! `apply` takes all its memory before its first call of the disk: the bytes are made, the file's limit is looked at, the
//! batch is put into what is kept, and then the frame is committed. Behind that only the disk can fail, and then the
//! state is broken and is to be loaded again. So nothing is copied, and nothing has to be undone.
//!
//! The value of a state has the lists of what is kept, since a type's value can't hold functions; clauses go by
//! `kept_in` and `any_in`, which see them as functions, so that two that are alike are equal.
#![tactic(auto)]

mod any;
mod columns;
mod fault;
mod laws;
mod load;
mod made;
mod many;
mod parts;
mod room;
mod state;

pub use any::{AnyBatch, decode_any};
pub use carte_journal::{Bank, CommitFault, LoadFault, Region};
pub use fault::ApplyFault;
pub use laws::{bad_at_one, history_keeps, keeps_one, keeps_or_bad, old_is_one, one_is_old};
pub use many::apply_all;
pub use state::State;
