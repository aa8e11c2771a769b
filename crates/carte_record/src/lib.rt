//! What is kept from one build to the next, and the batches that change it.
//!
//! `Kept` and `Batch` are plain data: the links, entries, traces and values of a state file. Contracts read them through
//! `kept_view`, a record of functions (what each name was seen with, the entry of each key, its traces newest first and
//! each once, the first value of each digest), so that two of them that are alike are equal, and a batch is a function
//! on it. They stand in the lists of `carte_table`, each with a table from keys to places beside it: of entries the first
//! place of each key, of traces all. A deep trace names the rules beneath its key with their tasks, so it has a type of
//! its own; contracts speak of the traces of one kind by `TraceBy`. Turned down: one type for all traces, in which those
//! of two kinds hold a list of one task.
//!
//! A batch is taken in by two steps. First each list grows behind what it has: values and traces are put there, and an
//! entry for each key that has none. This can fail, and is undone by cutting the lists. Then entries are replaced and
//! marked in place, which can't fail. Both cost what the batch has in it. Only a batch that drops names is taken in by a
//! copy that lacks them, since what is taken out of a table in place can't be put back without memory; names are dropped
//! where they change their role from one book to the next. Turned down: a copy for every batch. A list with nothing in it
//! becomes the batch's own list, unless a key comes twice in that one: so what a state file begins with is never held
//! twice. A batch may name a key twice; the later one counts.
//!
//! What is kept is most of what a build holds between builds, so what is read from bytes grows as items come and gives
//! back the rest.
#![tactic(auto)]

mod apply;
mod batch;
mod codec;
mod deep_trace;
mod entries;
mod entry;
mod kept;
mod keyed;
mod laws;
mod lengths;
mod measured;
mod start;
mod trace;
mod way;

pub use batch::Batch;
pub use carte_table::{Plain, Seen, Store};
pub use codec::{one_body, one_body_three};
pub use deep_trace::{DeepTrace, DeepTraces};
pub use entries::Entries;
pub use entry::Entry;
pub use kept::Kept;
pub use laws::empty_changes_nothing;
pub use start::Start;
pub use trace::{Trace, Traces};
pub use way::Way;
