//! The operators and functions of formulas, worked out.
//!
//! What each one gives is defined in `carte_tree`; here is the code. It works on values alone: whoever evaluates a formula has looked up the
//! names before and hands in the values, and gets the names that INDIRECT and GATHER want before it looks them up. Evaluating a tree with a
//! closure that fetches was turned down: a computation that halts at a name and goes on later could not be written on top of it without
//! evaluating anew. A value as a text is always there (a bad value is the result before anybody reads it as a text), which keeps kinds out of
//! texts. SUM adds in i128, where 2^32 numbers of i64 have room, so that only the whole sum has to fit. `&` is there twice: of a list of
//! values, as any operator, and as `join_onto`, which lets the left one grow, since a chain of `&` would copy its beginning at each step.
#![tactic(auto)]

mod applied;
mod arithmetic;
mod coercions;
mod found;
mod joining;
mod lines;
mod logic;
mod numbers;
mod order;
mod texts;

pub use applied::{apply, call, condition, negate};
pub use found::{name_in, names_in};
pub use joining::join_onto;
