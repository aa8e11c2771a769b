ghost use Rattle.std.specs.Prelude.{◌≡◌, ◌++◌, ◌∷◌, []};
ghost use Rattle.carte_tree.specs.Tree.{called_tree};
ghost use Rattle.carte_formula.specs.Frames.{called_at, frame_of, frames_of};
ghost use Rattle.carte_formula.specs.Machine.{after, close, split, end_args, next_args};
ghost use Rattle.carte_tree.specs.Code.{tree_of, arg_tree, args_trees};
ghost use Rattle.carte_formula.specs.Parser.{args_next, GoesTo};

use crate::frames::{Frame, call_of, signed, whole_chain, with_arg, with_last};
use crate::parser::operand::{after, put};
use crate::parser::states::{Parser, State};
use crate::{Arg, Expr, Func};
use carte_value::NoMemory;
use std::alloc::Global;

/// A closing bracket behind an operand.
#[inline(always)]
pub fn close(alloc: Global, operand: Expr, parser: &mut Parser) -> Result<bool, NoMemory>
    ensures { GoesTo result parser.new (close (tree_of operand) (frames_of parser.old.stack.frames.items)) }
{
    match parser.stack.pop_call() {
        Some((func, done)) => end_args(alloc, func, done, Arg::One(operand), parser),
        None => close_inner(alloc, operand, parser),
    }
}

/// A closing bracket behind an operand that may end signs or chains.
#[cycle(close)]
fn close_inner(alloc: Global, operand: Expr, parser: &mut Parser) -> Result<bool, NoMemory>
    ensures { GoesTo result parser.new (close (tree_of operand) (frames_of parser.old.stack.frames.items)) }
{
    match parser.stack.pop() {
        Some(frame) => close_behind(alloc, operand, frame, parser),
        None => Ok(false),
    }
}

#[cycle(close)]
fn close_behind(
    alloc: Global,
    operand: Expr,
    frame: Frame,
    parser: &mut Parser,
) -> Result<bool, NoMemory>
    ensures { GoesTo result parser.new (close (tree_of operand) (frame_of frame ∷ frames_of parser.old.stack.frames.items)) }
{
    match frame {
        Frame::Sign(minus) => close_inner(alloc, signed(alloc, minus, operand)?, parser),
        Frame::Chain(begun) => close_inner(alloc, whole_chain(alloc, begun, operand)?, parser),
        Frame::Group => {
            after(alloc, operand, parser)?;
            Ok(true)
        }
        Frame::Call(func, done) => end_args(alloc, func, done, Arg::One(operand), parser),
    }
}

/// A closing bracket behind the last argument of a call.
#[inline(always)]
pub fn end_args(
    alloc: Global,
    func: Func,
    done: Vec<Arg>,
    arg: Arg,
    parser: &mut Parser,
) -> Result<bool, NoMemory>
    ensures { GoesTo result parser.new (end_args func (args_trees done.items ++ arg_tree arg ∷ []) (frames_of parser.old.stack.frames.items)) }
{
    if !func.is_enough(done.len() + 1) {
        return Ok(false);
    }
    end_call(alloc, func, with_last(done, arg)?, parser)
}

#[inline(always)]
fn end_call(
    alloc: Global,
    func: Func,
    args: Vec<Arg>,
    parser: &mut Parser,
) -> Result<bool, NoMemory>
    ensures { GoesTo result parser.new (Some (after (called_tree func (args_trees args.items)) (frames_of parser.old.stack.frames.items))) }
{
    after(alloc, call_of(func, args)?, parser)?;
    Ok(true)
}

/// A comma behind an operand.
#[tactic(auto, using(crate::proofs::Commas::split_next))]
#[inline(always)]
pub fn split(alloc: Global, operand: Expr, parser: &mut Parser) -> Result<bool, NoMemory>
    ensures { GoesTo result parser.new (split (tree_of operand) (frames_of parser.old.stack.frames.items)) }
{
    match parser.stack.called() {
        Some((func, count)) => next_arg(func, count, Arg::One(operand), parser),
        None => split_inner(alloc, operand, parser),
    }
}

/// A comma behind an argument of the call that is newest, which has so many with it.
#[inline(always)]
fn next_arg(func: Func, count: usize, arg: Arg, parser: &mut Parser) -> Result<bool, NoMemory>
    requires { called_at parser.old.stack.frames.items ≡ Some (func, count) }
    ensures { GoesTo result parser.new (args_next (arg_tree arg) (frames_of parser.old.stack.frames.items)) }
{
    if !func.has_room(count) {
        return Ok(false);
    }
    parser.stack.add_arg(arg)?;
    parser.state = State::Wants;
    Ok(true)
}

/// A comma behind an operand that ends signs or chains.
#[cycle(split)]
fn split_inner(alloc: Global, operand: Expr, parser: &mut Parser) -> Result<bool, NoMemory>
    ensures { GoesTo result parser.new (split (tree_of operand) (frames_of parser.old.stack.frames.items)) }
{
    match parser.stack.pop() {
        Some(frame) => split_behind(alloc, operand, frame, parser),
        None => Ok(false),
    }
}

#[cycle(split)]
fn split_behind(
    alloc: Global,
    operand: Expr,
    frame: Frame,
    parser: &mut Parser,
) -> Result<bool, NoMemory>
    ensures { GoesTo result parser.new (split (tree_of operand) (frame_of frame ∷ frames_of parser.old.stack.frames.items)) }
{
    match frame {
        Frame::Sign(minus) => split_inner(alloc, signed(alloc, minus, operand)?, parser),
        Frame::Chain(begun) => split_inner(alloc, whole_chain(alloc, begun, operand)?, parser),
        Frame::Group => Ok(false),
        Frame::Call(func, done) => next_args(func, done, Arg::One(operand), parser),
    }
}

/// A comma behind an argument of a call.
pub fn next_args(
    func: Func,
    done: Vec<Arg>,
    arg: Arg,
    parser: &mut Parser,
) -> Result<bool, NoMemory>
    ensures { GoesTo result parser.new (next_args func (args_trees done.items ++ arg_tree arg ∷ []) (frames_of parser.old.stack.frames.items)) }
{
    if !func.has_room(done.len() + 1) {
        return Ok(false);
    }
    put(Frame::Call(func, with_arg(done, arg)?), parser)
}
