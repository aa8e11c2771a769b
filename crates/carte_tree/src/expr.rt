use carte_value::{Area, Name, NoMemory, Text};
use std::alloc::Global;

/// A formula. A `Number` is never negative: a negative one is the `Neg` of it.
#[derive(Debug, Drop)]
#[cycle(expr)]
pub enum Expr {
    Number(i64),
    Text(Text),
    Ref(Name),
    Neg(Box<Expr>),
    Chain(Box<Chain>),
    Call(Func, Args),
}

/// Operands with operators of one level between them, worked from left to right. There is at least one operator.
#[derive(Debug, Drop)]
#[cycle(expr)]
pub struct Chain {
    pub level: Level,
    pub first: Expr,
    pub rest: Rest,
}

/// Each operator of a chain with the operand behind it. Most chains have one operator, and no list then.
#[derive(Debug, Drop)]
#[cycle(expr)]
pub struct Rest {
    pub first: (Op, Expr),
    pub more: Vec<(Op, Expr)>,
}

/// The arguments of a call.
#[derive(Debug, Drop)]
#[cycle(expr)]
pub struct Args {
    pub items: Vec<Arg>,
}

/// An argument: one formula, or all cells of a range.
#[derive(Debug, Drop)]
#[cycle(expr)]
pub enum Arg {
    One(Expr),
    Cells(Area),
}

/// How tightly the operators of a chain bind, from the loosest to the tightest.
#[derive(Clone, Copy, Debug, PartialEq, Eq)]
pub enum Level {
    Compare,
    Concat,
    Sum,
    Product,
}

#[derive(Clone, Copy, Debug, PartialEq, Eq)]
pub enum Op {
    Eq,
    Ne,
    Lt,
    Le,
    Gt,
    Ge,
    Join,
    Add,
    Sub,
    Mul,
    Div,
}

#[derive(Clone, Copy, Debug, PartialEq, Eq)]
pub enum Func {
    Sum,
    Min,
    Max,
    Count,
    Concat,
    And,
    Or,
    Len,
    Upper,
    Lines,
    Line,
    Not,
    If,
    Pick,
    Indirect,
    Gather,
}
