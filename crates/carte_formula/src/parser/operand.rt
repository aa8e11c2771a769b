ghost use Rattle.std.specs.Prelude.{◌≡◌, ◌∷◌, true, OnOk, IfOk};
ghost use Rattle.carte_formula.specs.Machine.{after, had, cell_at, begin, sign_at, wants};
ghost use Rattle.carte_formula.specs.Frames.{may_range, frame_of, frames_of};
ghost use Rattle.carte_formula.specs.Tokens.{sign_token};
ghost use Rattle.carte_tree.specs.Code.{tree_of};
ghost use Rattle.carte_formula.specs.Parser.{holding, reached, GoesTo};

use crate::frames::{Frame, Stack, signed};
use crate::parser::states::{Parser, Range, State};
use crate::{Expr, Op};
use carte_lexer::{Cell, Sign};
use carte_value::NoMemory;
use std::alloc::Global;

/// An operand is whole, and so are the signs before it.
#[inline(always)]
pub fn after(alloc: Global, operand: Expr, parser: &mut Parser) -> Result<(), NoMemory>
    ensures { OnOk result (reached parser.new ≡ after (tree_of operand) (frames_of parser.old.stack.frames.items)) }
{
    let whole = with_signs(alloc, operand, &mut parser.stack)?;
    put_away(whole, parser);
    Ok(())
}

/// An operand that is whole is kept until a token shows what becomes of it.
#[inline(always)]
pub fn put_away(operand: Expr, parser: &mut Parser)
    ensures { parser.new ≡ holding parser.old operand }
{
    parser.operand = operand;
    parser.state = State::Had;
}

/// An operand with the signs before it, which are ended by it. Mostly there are none.
#[tactic(auto, using(crate::proofs::Signs::had_after))]
#[inline(always)]
pub fn with_signs(alloc: Global, operand: Expr, stack: &mut Stack) -> Result<Expr, NoMemory>
    ensures { IfOk result (λ e. after (tree_of operand) (frames_of stack.old.frames.items) ≡ had (tree_of e) (frames_of stack.new.frames.items)) }
{
    if stack.is_signed() {
        return with_each_sign(alloc, operand, stack);
    }
    Ok(operand)
}

#[tactic(auto, using(crate::proofs::Signs::unsigned_after))]
fn with_each_sign(alloc: Global, operand: Expr, stack: &mut Stack) -> Result<Expr, NoMemory>
    ensures { IfOk result (λ e. after (tree_of operand) (frames_of stack.old.frames.items) ≡ had (tree_of e) (frames_of stack.new.frames.items)) }
{
    match stack.pop_sign() {
        Some(minus) => with_each_sign(alloc, signed(alloc, minus, operand)?, stack),
        None => Ok(operand),
    }
}

/// A cell is an operand, but for the first token of an argument that may be a range.
#[tactic(auto, using(crate::proofs::Signs::no_corner))]
pub fn cell_at(alloc: Global, cell: Cell, parser: &mut Parser) -> Result<(), NoMemory>
    ensures { OnOk result (reached parser.new ≡ cell_at cell (frames_of parser.old.stack.frames.items)) }
{
    if parser.stack.takes_ranges() {
        corner_at(cell, parser);
        return Ok(());
    }
    after(alloc, Expr::Ref(cell.into_name()), parser)
}

/// A cell begins an argument that may be a range.
fn corner_at(cell: Cell, parser: &mut Parser)
    requires { may_range parser.old.stack.frames.items ≡ true }
    ensures { reached parser.new ≡ cell_at cell (frames_of parser.old.stack.frames.items) }
{
    match parser.stack.pop() {
        Some(Frame::Call(func, done)) => {
            parser.state = State::InRange;
            parser.range = Range::Corner(cell, func, done);
        }
        _ => unreachable!(),
    }
}

/// A sign before an operand.
#[inline(always)]
pub fn sign_at(op: Op, parser: &mut Parser) -> Result<bool, NoMemory>
    ensures { GoesTo result parser.new (sign_at op (frames_of parser.old.stack.frames.items)) }
{
    match op {
        Op::Sub => put(Frame::Sign(true), parser),
        Op::Add => put(Frame::Sign(false), parser),
        _ => Ok(false),
    }
}

/// A frame is begun, and an operand comes.
#[inline(always)]
pub fn put(frame: Frame, parser: &mut Parser) -> Result<bool, NoMemory>
    ensures { GoesTo result parser.new (Some (wants (frame_of frame ∷ frames_of parser.old.stack.frames.items))) }
{
    parser.stack.push(frame)?;
    parser.state = State::Wants;
    Ok(true)
}

/// A sign where an operand comes.
#[inline(always)]
pub fn begin(sign: Sign, parser: &mut Parser) -> Result<bool, NoMemory>
    ensures { GoesTo result parser.new (begin (sign_token sign) (frames_of parser.old.stack.frames.items)) }
{
    match sign {
        Sign::Op(op) => sign_at(op, parser),
        Sign::Open => put(Frame::Group, parser),
        Sign::Close | Sign::Comma | Sign::Colon => Ok(false),
    }
}
