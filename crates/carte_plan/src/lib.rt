//! The batches that a build may commit, from what it began with and the keys that it finished.
//!
//! It is a pure call over any rebuilder: nothing is read but what the build has at its end, and nothing is changed. Each
//! batch has a part of 256 finished keys, and the last one what is left. The first one drops the names that became something
//! else, and marks the keys that are to be marked, but those that it drops or that its part takes. Each finished key is noted
//! in its order, and the last batch has the new chain of a build that leaves one. Where nothing is dropped, marked or
//! finished there is one batch, an empty one.
//!
//! What the batches make of what is kept is told for each kind of build in the words of `carte_sound`: what was done over
//! what the build began with, in which order, and that each batch brings just what is new by its part. No premise is needed
//! to call it: over kept information of another origin the batches are still made, and no entry of them is stale.
//!
//! One batch grows, and is cut where a part is full: entries and traces go, and the values and links that were noted stay in
//! it, since a later key may bring the same. Turned down: a batch of all keys that is cut at the end, which copies what it
//! has; and looking later keys up in all earlier parts, which takes longer with each.
//!
//! Where many keys ran, the digests of their tasks are worked out before any is noted: place by place of the book, as formulas
//! stand in memory, and by two threads (`ahead`). A build finishes rules in another order.
//!
//! Turned down: noting each key as it is finished, by the scheduler, which would then know batches; and one clause over
//! any property of what is done, which is of a higher universe than a contract may have.
#![tactic(auto)]

mod ahead;
mod cutting;
mod planning;

pub use cutting::FULL_PART;
pub use planning::{plan_parts, plan_parts_chained};
