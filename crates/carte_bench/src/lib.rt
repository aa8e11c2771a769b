//! The scheduling core: jobs, done values and who waits for whom, for every scheduler and every order of steps.
//!
//! A scheduler demands rules, takes jobs that are ready, drives each over the bench itself (a bench is a look: the book's
//! inputs and the values that are done), and puts each back with what it came to. Contracts see a bench as what stands
//! at each name. The laws are over any kind of job that keeps to the contract of `Job`: after every order of steps what
//! is done is clean, a stop waits for a need of its key, and nothing is done twice. A turn does the three steps of one key.
//! Where nothing can go on, `reason` follows the waits from a target round, or to a name that has nothing, and over jobs
//! that fit this is the book's reason.
//!
//! A look asks the slots first, and the book only of a name that has none: a bench knows that each name with a slot is a
//! rule of its book, since a job is put on it under a rule's name alone, and most looks of a build are at such names.
//!
//! The slots stand in one map in the order of their demands, so each has a dense number from the first day, while
//! contracts speak of names alone. A demand tells that number, for whoever gives it to a key as its hint, and the stop of a
//! job is kept with the next one: a turn compares the name there, and hashes only where it is another. A slot keeps the whole
//! outcome, since putting back takes no memory and can't copy a value out of it. A bench has a table of numbers' digests, which a turn
//! drives over: what is made goes about with its digest, and so does each input, and a number's digest is taken once.
//! Turned down: a list of who waits for a name. That a key waits is read off its stop and whether that is done, at no
//! cost in putting back; who needs to wake keys in order keeps a list of its own.
#![tactic(auto)]

mod bench;
mod laws;
mod look;
mod place;
mod reason;
mod slot;
mod turn;
mod way;

pub use bench::Bench;
pub use carte_book::Reason;
pub use laws::{done_once, ended_has_reason, every_schedule, reason_is, turn_keeps};
pub use place::Place;
pub use slot::Slot;
pub use turn::hashed;
