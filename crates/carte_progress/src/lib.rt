//! What is known of a build in progress, on which each scheduler stands that demands rules as others ask for them.
//!
//! A scheduler takes names from somewhere, drives their jobs over the bench and looks at what they came to; what may be
//! said in between is the same for all of them and stands here once. What was demanded is treated; the needs of what is
//! done are there; exactly what is done is finished, rightly, once and in order. It is kept by a drive of one key over any
//! part of what is done, and by each demand of a rule. Where no key can go on, it gives what a build has come to: the
//! treated rules with clean values are finished, and a target without one has its reason. This layer speaks of no
//! ledger, since schedulers differ in what they say of starts; above it stands what those say of theirs that start each
//! key once: exactly the tasks of what ran have ended, and each other that was started is still on the bench.
//!
//! Beside that stands what those schedulers share that work on a path of names, of which each waits for the one before it:
//! each open rule is on the path, or waits for a name that will never come; and a measure by which a build ends. With what
//! is done finished under its key, over whatever is kept, each target without a reason is finished.
//!
//! Turned down: one loop for all schedulers, with a policy. A path goes to the depth first and a wave to the breadth, and
//! what they have in common begins once a job was driven.
#![tactic(auto)]

mod finishing;
mod opening;
mod reasons;

pub use finishing::finish_made;
pub use opening::{open, open_stop, push};
pub use reasons::first_reason;
