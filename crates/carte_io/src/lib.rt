//! The outside as traits: where bytes come from, where they go and where they stay, each with what it means and a
//! count of its failures.
//!
//! A `Source` has bytes left, a `Sink` has taken bytes. What a value means is a ghost member of its
//! trait, so code over the trait is proved once, for memory and for files alike. Some types can't tell
//! their bytes: no proof can say what a file holds. So each trait has a fact `tells`, and each clause on
//! bytes has it as a premise. It is a fact of the type: of a value it would have to be carried from call
//! to call, in both directions, and a content that may be missing, as an `Option`, puts every proof
//! under a case.
//!
//! A failure has no reason that a caller could act on, so it is the one value `Failed`. What a caller
//! may conclude from it is that the object's own count of failures rose in that call.
//!
//! A `Disk` tells a story: what a read gives now, what was there at the last sync, the ranges written since, the
//! moments before this one, and how many writing calls passed. What a crash may leave is one definition over that,
//! `IsImage`. So each call that passes is an equation between two stories, and calls one after another compose by
//! themselves. Predicates as "may leave" would spread the model over the clauses of each call, and need a clock.
//!
//! The types in memory tell everything, and fail where a list of call numbers says so. Thus a test can
//! make each call of a run fail in turn. The adapters over std's readers, writers and files tell
//! nothing of bytes; each says that its answer is that of a call of what it is over.
#![tactic(auto)]

mod absent;
mod counts;
mod crashes;
mod disk;
mod failed;
mod file_calls;
mod file_disk;
mod gate;
mod mem_disk;
mod mem_sink;
mod mem_source;
mod passed;
mod read_sources;
mod sink;
mod source;
mod whole;
mod write_sinks;

pub use absent::Absent;
pub use carte_value::NoMemory;
pub use crashes::Pick;
pub use disk::Disk;
pub use failed::Failed;
pub use file_calls::FileCalls;
pub use file_disk::FileDisk;
pub use gate::{Gate, NoGate};
pub use mem_disk::MemDisk;
pub use mem_sink::MemSink;
pub use mem_source::MemSource;
pub use read_sources::ReadSource;
pub use sink::{Sink, write_all};
pub use source::Source;
pub use whole::{ReadEnd, read_whole};
pub use write_sinks::WriteSink;
