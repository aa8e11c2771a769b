//! The language of formulas: its grammar, and the reader that is proved against it.
//!
//! Form. The grammar (specs/Grammar.antt) is a relation between lists of tokens and trees, case by case as it is written down, with the
//! four levels of operators as one rule with a number. A fault is a statement of the same relation: bad syntax stands at the first
//! token with which no formula's tokens begin, whatever follows. Tokens are those of `carte_lexer`, the longest that fit, and trees
//! those of `carte_tree`; the calls of both that users of formulas need are handed on here.
//!
//! The reader takes a text's tokens one after the other, as they are met, and makes no list of them: it keeps a state and a stack of
//! the signs, chains, groups and calls that are begun (specs/Machine.antt; `frames.rt`), and beside it how many cells
//! the ranges so far have (`carte_lexer`). From each state of this machine some tokens lead to a formula, so the first token that
//! it refuses is the fault's place. Only then is the rest looked through for a bad token, which comes before a fault of syntax
//! (specs/Resumed.antt). No fitting text is read twice.
//!
//! A token goes to the machine from its first byte on (`parser.rt`): a sign is a value that owns nothing, and a number, a text or a
//! name is an operand where it is made, since a token of any kind that is handed from call to call is copied by each.
//!
//! A book has many formulas: `read_in` reads one after the other in a `Room`, which keeps the memory of its stack from text to text.
//!
//! Turned down:
//! - Recursive descent: its contracts would have to say for each call what may follow it, and to place a fault it would need to know
//!   all that is begun, which the stack has.
//! - Tables of a generated parser: they would have to be shown to be those of the grammar, and there are six states.
//! - A list of all tokens before the first is parsed: it took a fifth of the time. The laws of tokens speak of that list all the same.
#![tactic(auto)]

mod frames;
mod laws;
mod parser;
mod reader;

pub use carte_lexer::{lexes_blanks, lexes_longest};
pub use carte_tree::{
    Arg, Args, Chain, Expr, FormulaFault, Func, Level, Op, Rest, is_static, print, refs,
};
pub use laws::{reads_one, reads_print, reads_reading, reads_some, spells_one};
pub use reader::{Room, read, read_in};
