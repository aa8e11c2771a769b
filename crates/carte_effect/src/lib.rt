//! Effects: who answers for the values of names, what a job makes of the answers, and the ledger of what ran.
//!
//! Schedulers and rebuilders speak of jobs and of no formula, and a task doesn't know where values come from (Mokhov, Mitchell and Peyton Jones,
//! "Build Systems à la Carte"). Between the two stand an `Effect`, which is asked for one name after the other, and a `FetchList`, which is asked
//! for many at once; a `Look`, of which a `Snapshot` makes an effect; and a `Job`, which is driven over an effect and comes to a `Made`.
//!
//! A value that a job made goes about with its digest, so that this is taken once, however many look at the value (`Hashed`). The digests of
//! numbers, which many keys share, are kept beside them (`Digests`), so that each number's is taken once, and so are those of long texts that
//! no job made, by the names at which they were met.
//!
//! The form chosen: an effect means a truth (what each name has), the stops that are its own for a name, and a log where it keeps one. A
//! job has a meaning too, in ghost members: what a drive over a truth gives by which further answers, and when a job fits a key. The laws of a job,
//! `fits_on` and `keyed_on`, speak of these alone, so a scheduler's proof knows neither machines nor checks.
//!
//! Turned down:
//! - One meaning of jobs for all, as a tree of what they ask: each kind of job would have to be turned into it, and a machine is more than
//!   that (its answers, its key). Each kind has its own meaning, and the law is what they share.
//! - A log in each effect: most keep none, and a snapshot would copy what nobody reads.
//! - `Ended` and `Reuse` that only a machine or a check can make: these stand in a crate above, as other kinds of job do. So the constructors are
//!   public, and what an end promises stands in the contract of the drive that hands it out.
#![tactic(auto)]

mod digests;
mod each;
mod effect;
mod hashed;
mod job;
mod list;
mod look;
mod outcome;
mod refs_only;
mod runs;
mod shared;
mod tracked;

pub use digests::Digests;
pub use each::Each;
pub use effect::{Effect, Halt};
pub use hashed::Hashed;
pub use job::Job;
pub use list::{Answers, FetchList};
pub use look::{Look, Seen, Snapshot, Stuck};
pub use outcome::{Ended, Made, Reuse};
pub use refs_only::{Never, RefsOnly};
pub use runs::Runs;
pub use tracked::Tracked;
