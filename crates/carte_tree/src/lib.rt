//! Formulas as trees: what they are, what they refer to, how they are printed, and what they mean.
//!
//! Form. Contracts see one pure tree, onto which `tree_of` folds an `Expr`, so that no statement speaks of boxes or vectors.
//! A formula is a computation that asks for the values of names (`specs/Meaning.antt`): it is done, or it asks for a name and goes on with the
//! answer. The rest of the engine speaks of such computations and of no text. Operators and functions are defined as functions of the
//! list of their arguments' values (`specs/Applied.antt`, `specs/Functions.antt`), one line each, as a reader of Excel's documentation would say them. So
//! "the first bad value is the result" stands once, as `strict`, and only IF, INDIRECT and GATHER, which decide what is asked for,
//! have a form of their own.
//!
//! This crate reads no text and works out no value: `carte_formula` reads, and `carte_functions` has the operators and functions as code.
//! But what is told of a function by itself stands together here, also which one has a name (`func.rt`), so that a new one is soon added.
//! Books, tasks and schedulers need neither, only what formulas are and what they mean. Why a text is no formula stands here too, since
//! a book's faults have it. Copying, printing and looking for references go down a formula's nesting by calls; what was read is
//! at most 64 levels deep.
//!
//! Turned down:
//! - A node for each operator: a sum of 2,000 terms would be 2,000 deep, so that the depth of calls were bound by a text's length.
//! - Nodes for brackets, unary plus and places: two spellings of one formula would differ, and with them the digest of a book's rules.
//!
//! `laws` says that a static formula asks for what it mentions, in order and whatever is answered.
#![tactic(auto)]

mod boxed;
mod copy;
mod expr;
mod fault;
mod fixed;
mod func;
mod laws;
mod level;
mod mentioned;
mod printer;

pub use boxed::{chain_of, neg_of};
pub use expr::{Arg, Args, Chain, Expr, Func, Level, Op, Rest};
pub use fault::FormulaFault;
pub use fixed::is_static;
pub use laws::{static_asks, static_ends, static_looks, static_needs, static_runs};
pub use mentioned::refs;
pub use printer::{print, print_expr};
