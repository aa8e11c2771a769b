//! Why a build would run a key, or would not: what a preview leaves unsaid.
//!
//! A preview tells by its work which keys ran and which were reused. What is told here is the cause, from what was kept
//! before the build: that no trace is of the present task, of a trace that is the first link whose name has another digest
//! now, of an entry its mark. The answer is one value of `Why`, stated by `IsWhy` over what a build begins with, in the words
//! in which keys are held; no search is told. It holds under every history that what is kept is sound for; over kept
//! information of another origin there is an answer too, with no promise.
//!
//! The work says whether the key ran, so nothing is decided anew. The present digests come from its finished keys and
//! from the book: a key that isn't held has its needs finished, and the first link of a trace of its present task that
//! differs names a need, since what the task asks for next follows from the values that it was given before. What is kept is
//! borrowed as it is, without what a build would mark or drop: of a rule nothing is dropped.
//!
//! A path to a changed name is found by the search of `carte_search` over the entries, among their keys and the names that
//! were seen; its end tells whether that was an input or a rule. Where nothing was marked, no such path is looked for.
//!
//! Turned down: to keep the cause in the work as the build goes on, which each build would pay for; to tell every trace
//! that differs, of which the newest says most; and to tell where traces of other tasks differ, which say nothing of the
//! present one.
#![tactic(auto)]

mod causes;
mod nodes;
mod paths;
mod target;
mod traces;
mod why;

pub use target::explain;
pub use why::{RebuilderKind, Why};
