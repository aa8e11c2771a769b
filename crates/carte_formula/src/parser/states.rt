use crate::frames::Stack;
use crate::{Arg, Expr, Func};
use carte_lexer::Cell;
use carte_value::Area;

/// What the tokens so far lead to, beside the stack. It owns nothing, so that each step sets it at no cost.
#[derive(Clone, Copy, Debug, PartialEq, Eq)]
pub enum State {
    /// An operand comes.
    Wants,
    /// An operand stands, the parser's `operand`.
    Had,
    /// A function's name stands.
    Named(Func),
    /// An argument is begun that is or may be a range, the parser's `range`.
    InRange,
}

/// An argument that is or may be a range, with the call that it stands in.
#[derive(Drop)]
pub enum Range {
    /// None.
    Nothing,
    /// A cell stands that begins an argument and may begin a range.
    Corner(Cell, Func, Vec<Arg>),
    /// A cell and a colon stand.
    Half(Cell, Func, Vec<Arg>),
    /// A range stands.
    Whole(Area, Func, Vec<Arg>),
}

/// Where a text's reading is. A token changes it in place, since a state that was handed on from call to call would be copied by each.
#[derive(Drop)]
pub struct Parser {
    pub state: State,
    /// The operand that stands, where one does, and else a number without meaning.
    pub operand: Expr,
    /// The range that stands, where one does, and else nothing that is looked at.
    pub range: Range,
    pub stack: Stack,
}
