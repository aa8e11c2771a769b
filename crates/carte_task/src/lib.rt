//! Tasks: formulas that run over whoever answers for the values of names.
//!
//! Schedulers and rebuilders speak of tasks and of no formula. A task doesn't know where values come from (Mokhov, Mitchell and Peyton
//! Jones, "Build Systems à la Carte"): a `Machine` asks an `Effect` for one name after the other, as it needs them, and a `StaticTask` asks a
//! `FetchList` for all of its references at once, so over `RefsOnly` it tells them without any value. A `Check` compares the digests of an
//! earlier run in place of running, a `Job` is either, and `Runs` counts what was started and what ended.
//!
//! The form chosen: a formula is flat code in postfix order with jumps for IF, and values wait on a stack (`compile`, `code`, `execute`).
//! An instruction says which names are to be looked up and how it goes on then, and one place looks names up (`progress`), so that "each name
//! once" and "a stop changes nothing" are proved once. The first few answers are searched one by one, the others by an index (`known`). A
//! stopped machine is a place in the code, a stack and the answers so far, and goes on at the fetch that stopped it, for the cost of what is left.
//!
//! The meaning of a machine is its residual computation: what it still asks, and goes on with (`specs/State.antt`). A drive's contract says which
//! answers lead from the residual before it to the one after it, for every effect. What that is for the formula, over any number of
//! drives, follows by putting answers one behind the other (`specs/Laws.antt`).
//!
//! Turned down:
//! - Evaluating a tree anew after each stop, over remembered answers: nothing to prove about a stopped machine, but a formula that stops
//!   at each of n names works n times.
//! - Frames, a stack of half evaluated parts of the tree: each kind of frame is a case in each proof, and they borrow from the tree or copy it.
//! - A second evaluator for static tasks: `StaticTask::run` is a machine whose answers are there before it starts, so there is no law to be proved
//!   that two evaluators agree.
//! - Telling from the code whether a task is static: a jump doesn't tell what it passes over, so a task keeps what `is_static` says of its formula.
#![tactic(auto)]

mod check;
mod code;
mod compile;
mod execute;
mod known;
mod machine;
mod machine_job;
mod mentioned;
mod progress;
mod range;
mod static_run;
mod static_task;
mod task;

pub use carte_effect::{
    Answers, Each, Effect, Ended, FetchList, Halt, Hashed, Job, Look, Made, Never, RefsOnly, Reuse,
    Runs, Seen, Snapshot, Stuck, Tracked,
};
pub use check::{Check, Verdict};
pub use machine::Machine;
pub use static_task::StaticTask;
pub use task::Task;
