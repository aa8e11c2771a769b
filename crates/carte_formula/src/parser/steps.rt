ghost use Rattle.std.specs.Prelude.{◌≡◌, Some};
ghost use Rattle.carte_formula.specs.Machine.{cell_at, go_on, at_corner, at_range, next_state, end_of};
ghost use Rattle.carte_tree.specs.Code.{tree_of, args_trees};
ghost use Rattle.carte_formula.specs.Tokens.{sign_token};
ghost use Rattle.carte_lexer.specs.declared.tokens.Token.TheVariants as tokens;
ghost use Rattle.carte_formula.specs.declared.parser.states.State.TheVariants as states;
ghost use Rattle.carte_formula.specs.Frames.{frames_of, EndsTo};
ghost use Rattle.carte_formula.specs.Parser.{range_of, reached, is_wanting, operand_at, GoesTo, OptionGoesTo};

use crate::frames::{Frame, end, join};
use crate::parser::chains::{close, end_args, next_args, split};
use crate::parser::operand::{after, begin, cell_at, put, sign_at};
use crate::parser::states::{Parser, Range, State};
use crate::{Arg, Expr, Func, Op};
use carte_lexer::{Cell, Sign, Token};
use carte_value::{Area, NoMemory};
use std::alloc::Global;
use std::mem;

/// Takes a token, and tells whether a formula may go on with it.
#[tactic(auto, using(crate::proofs::Wanting::number_next, crate::proofs::Wanting::text_next, crate::proofs::Wanting::word_next))]
#[inline(never)]
pub fn step(alloc: Global, token: Token, parser: &mut Parser) -> Result<bool, NoMemory>
    ensures { GoesTo result parser.new (next_state (reached parser.old) token) }
{
    match token {
        Token::Number(number) => take_operand(alloc, Expr::Number(number), parser),
        Token::Text(text) => take_operand(alloc, Expr::Text(text), parser),
        Token::Word(name) => take_operand(alloc, Expr::Ref(name), parser),
        Token::Cell(cell) => take_cell(alloc, cell, parser),
        Token::Func(func) => Ok(take_func(func, parser)),
        Token::Op(op) => step_op(alloc, op, parser),
        Token::Open => step_open(alloc, parser),
        Token::Close => step_close(alloc, parser),
        Token::Comma => step_comma(alloc, parser),
        Token::Colon => step_colon(alloc, parser),
    }
}

/// Whether an operand comes.
#[inline(always)]
pub fn is_wanting(parser: &Parser) -> bool
    ensures { result ≡ is_wanting parser.now.state parser.now.range }
{
    match parser.state {
        State::Wants => true,
        State::InRange => is_nothing(&parser.range),
        _ => false,
    }
}

fn is_nothing(range: &Range) -> bool
    ensures { result ≡ is_wanting states.InRange range.now }
{
    match range {
        Range::Nothing => true,
        _ => false,
    }
}

/// A number, a text or the name of a rule file.
#[inline(always)]
fn take_operand(alloc: Global, operand: Expr, parser: &mut Parser) -> Result<bool, NoMemory>
    ensures { GoesTo result parser.new (operand_at parser.old (tree_of operand)) }
{
    if !is_wanting(parser) {
        return Ok(false);
    }
    after(alloc, operand, parser)?;
    Ok(true)
}

/// A function's name.
#[tactic(auto, using(crate::proofs::Wanting::func_next))]
#[inline(always)]
pub fn take_func(func: Func, parser: &mut Parser) -> bool
    ensures { OptionGoesTo result parser.new (next_state (reached parser.old) (tokens.Func func)) }
{
    if !is_wanting(parser) {
        return false;
    }
    parser.state = State::Named(func);
    true
}

/// A cell.
fn take_cell(alloc: Global, cell: Cell, parser: &mut Parser) -> Result<bool, NoMemory>
    ensures { GoesTo result parser.new (next_state (reached parser.old) (tokens.Cell cell)) }
{
    match parser.state {
        State::Wants => cell_begins(alloc, cell, parser),
        State::InRange => cell_in_range(alloc, cell, parser),
        _ => Ok(false),
    }
}

fn cell_begins(alloc: Global, cell: Cell, parser: &mut Parser) -> Result<bool, NoMemory>
    ensures { GoesTo result parser.new (Some (cell_at cell (frames_of parser.old.stack.frames.items))) }
{
    cell_at(alloc, cell, parser)?;
    Ok(true)
}

/// A cell behind a cell or a range in an argument.
fn cell_in_range(alloc: Global, cell: Cell, parser: &mut Parser) -> Result<bool, NoMemory>
    ensures { GoesTo result parser.new (next_state (range_of parser.old.range parser.old.stack.frames.items) (tokens.Cell cell)) }
{
    match mem::replace(&mut parser.range, Range::Nothing) {
        Range::Nothing => cell_begins(alloc, cell, parser),
        Range::Corner(_, _, _) => Ok(false),
        Range::Half(first, func, done) => {
            parser.state = State::InRange;
            parser.range = Range::Whole(first.to(&cell), func, done);
            Ok(true)
        }
        Range::Whole(_, _, _) => Ok(false),
    }
}

/// Takes a sign, and tells whether a formula may go on with it.
#[inline(always)]
pub fn step_sign(alloc: Global, sign: Sign, parser: &mut Parser) -> Result<bool, NoMemory>
    ensures { GoesTo result parser.new (next_state (reached parser.old) (sign_token sign)) }
{
    match sign {
        Sign::Op(op) => step_op(alloc, op, parser),
        Sign::Open => step_open(alloc, parser),
        Sign::Close => step_close(alloc, parser),
        Sign::Comma => step_comma(alloc, parser),
        Sign::Colon => step_colon(alloc, parser),
    }
}

#[inline(always)]
fn step_op(alloc: Global, op: Op, parser: &mut Parser) -> Result<bool, NoMemory>
    ensures { GoesTo result parser.new (next_state (reached parser.old) (tokens.Op op)) }
{
    match parser.state {
        State::Wants => sign_at(op, parser),
        State::Had => go_on(alloc, Sign::Op(op), taken(&mut parser.operand), parser),
        State::Named(_) => Ok(false),
        State::InRange => in_range(alloc, Sign::Op(op), parser),
    }
}

#[inline(always)]
fn step_open(alloc: Global, parser: &mut Parser) -> Result<bool, NoMemory>
    ensures { GoesTo result parser.new (next_state (reached parser.old) tokens.Open) }
{
    match parser.state {
        State::Wants => put(Frame::Group, parser),
        State::Had => Ok(false),
        State::Named(func) => put(Frame::Call(func, Vec::new(alloc)), parser),
        State::InRange => in_range(alloc, Sign::Open, parser),
    }
}

#[inline(always)]
fn step_close(alloc: Global, parser: &mut Parser) -> Result<bool, NoMemory>
    ensures { GoesTo result parser.new (next_state (reached parser.old) tokens.Close) }
{
    match parser.state {
        State::Had => close(alloc, taken(&mut parser.operand), parser),
        State::InRange => in_range(alloc, Sign::Close, parser),
        _ => Ok(false),
    }
}

#[inline(always)]
fn step_comma(alloc: Global, parser: &mut Parser) -> Result<bool, NoMemory>
    ensures { GoesTo result parser.new (next_state (reached parser.old) tokens.Comma) }
{
    match parser.state {
        State::Had => split(alloc, taken(&mut parser.operand), parser),
        State::InRange => in_range(alloc, Sign::Comma, parser),
        _ => Ok(false),
    }
}

#[inline(always)]
fn step_colon(alloc: Global, parser: &mut Parser) -> Result<bool, NoMemory>
    ensures { GoesTo result parser.new (next_state (reached parser.old) tokens.Colon) }
{
    match parser.state {
        State::InRange => in_range(alloc, Sign::Colon, parser),
        _ => Ok(false),
    }
}

/// A sign behind a cell or a range in an argument.
fn in_range(alloc: Global, sign: Sign, parser: &mut Parser) -> Result<bool, NoMemory>
    ensures { GoesTo result parser.new (next_state (range_of parser.old.range parser.old.stack.frames.items) (sign_token sign)) }
{
    match mem::replace(&mut parser.range, Range::Nothing) {
        Range::Nothing => begin(sign, parser),
        Range::Corner(cell, func, done) => at_corner(alloc, sign, cell, func, done, parser),
        Range::Half(_, _, _) => Ok(false),
        Range::Whole(area, func, done) => at_range(alloc, sign, area, func, done, parser),
    }
}

/// A sign behind an operand.
#[inline(always)]
pub fn go_on(
    alloc: Global,
    sign: Sign,
    operand: Expr,
    parser: &mut Parser,
) -> Result<bool, NoMemory>
    ensures { GoesTo result parser.new (go_on (sign_token sign) (tree_of operand) (frames_of parser.old.stack.frames.items)) }
{
    match sign {
        Sign::Op(op) => {
            join(alloc, op, operand, &mut parser.stack)?;
            parser.state = State::Wants;
            Ok(true)
        }
        Sign::Close => close(alloc, operand, parser),
        Sign::Comma => split(alloc, operand, parser),
        Sign::Open | Sign::Colon => Ok(false),
    }
}

/// Takes an operand from its place.
#[inline(always)]
fn taken(operand: &mut Expr) -> Expr
    ensures { result ≡ operand.old }
{
    mem::replace(operand, Expr::Number(0))
}

/// A sign behind the cell that begins an argument.
fn at_corner(
    alloc: Global,
    sign: Sign,
    cell: Cell,
    func: Func,
    done: Vec<Arg>,
    parser: &mut Parser,
) -> Result<bool, NoMemory>
    ensures { GoesTo result parser.new (at_corner (sign_token sign) cell func (args_trees done.items) (frames_of parser.old.stack.frames.items)) }
{
    match sign {
        Sign::Colon => {
            parser.state = State::InRange;
            parser.range = Range::Half(cell, func, done);
            Ok(true)
        }
        sign => {
            parser.stack.push(Frame::Call(func, done))?;
            go_on(alloc, sign, Expr::Ref(cell.into_name()), parser)
        }
    }
}

/// A sign behind a range.
fn at_range(
    alloc: Global,
    sign: Sign,
    area: Area,
    func: Func,
    done: Vec<Arg>,
    parser: &mut Parser,
) -> Result<bool, NoMemory>
    ensures { GoesTo result parser.new (at_range (sign_token sign) area func (args_trees done.items) (frames_of parser.old.stack.frames.items)) }
{
    match sign {
        Sign::Comma => next_args(func, done, Arg::Cells(area), parser),
        Sign::Close => end_args(alloc, func, done, Arg::Cells(area), parser),
        _ => Ok(false),
    }
}

/// The formula, where the text may end here.
pub fn finish(alloc: Global, parser: &mut Parser) -> Result<Option<Expr>, NoMemory>
    ensures { EndsTo result (end_of (reached parser.old)) }
{
    match parser.state {
        State::Had => end(alloc, taken(&mut parser.operand), &mut parser.stack),
        _ => Ok(None),
    }
}
