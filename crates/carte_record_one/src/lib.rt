//! What was kept in version 1 of the state file, which is only ever read.
//!
//! In version 1 entries and traces have no task, and all that is kept is about one set of rules, by whose digest it
//! stands or falls: a batch that begins anew drops the rest. The types have their own names (`EntryOne`, `TraceOne`,
//! `StartOne`, `BatchOne`, `KeptOne`), so that nothing of version 1 is ever taken for something of today. What both
//! versions spell alike (values, names, links, lists) is spelled by the same code.
//!
//! A body is read (`BatchOne::decode`) and taken in (`KeptOne::with`), and nothing else: no batch of version 1 is made
//! or written any more. So where memory runs out nothing is undone, as whoever reads a state has nothing then. Entries
//! stand in the list of entries that today's stand in, with a table, since later ones replace earlier ones; traces are
//! never looked up by their key, and stand in plain lists. Turned down: one type for both versions with a task that may
//! be lacking, which each clause on today's would have to speak of.
#![tactic(auto)]

mod batch;
mod codec;
mod entry;
mod kept;
mod start;
mod trace;

pub use batch::BatchOne;
pub use codec::one_body_one;
pub use entry::{EntriesOne, EntryOne};
pub use kept::KeptOne;
pub use start::StartOne;
pub use trace::{TraceOne, TracesOne};
