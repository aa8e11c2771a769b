//! The tokens of formulas: what a text is made of, and how many cells its ranges have.
//!
//! Form. A text's tokens are defined by a machine over its bytes (specs/Lexer.antt), which goes on with a run of bytes of one class
//! while it can. That each token is the longest that fits, and that only blanks stand between tokens, is a law of it
//! (specs/Longest.antt: `lexes_longest`, `lexes_blanks`), as is that printed tokens are read again (proofs/Lexing.antt).
//!
//! The code makes no list of tokens. It is asked what the byte at a place begins (`start_of`), and for the token of a run that begins
//! there (`meet_run`): a caller takes a sign as the value that it is, which owns nothing, and of a run what it needs. A fault of syntax
//! is a text's fault only where no bad token follows it, and `first_fault` looks for one.
//!
//! The loops over the runs that names and numbers are know their class, so that a byte takes one or two comparisons.
//!
//! `Ranges` is told each token, and adds up the cells of the ranges among them: a range is told by its tokens alone, a cell, a colon
//! and a cell, wherever it stands. So the place at which there are too many needs no parser.
//!
//! Turned down:
//! - Tables of classes by byte: the bytes fall into few intervals, and a table's contents would have to be shown to be these.
//! - One function that gives any next token: a token of any kind is large, and each call would copy it.
#![tactic(auto)]

mod cell;
mod laws;
mod lexer;
mod tokens;
mod width;

pub use cell::Cell;
pub use laws::{lexes_blanks, lexes_longest};
pub use lexer::{first_fault, meet_run, start_of};
pub use tokens::{Class, Placed, Sign, Start, Token};
pub use width::{Begun, Ranges};
