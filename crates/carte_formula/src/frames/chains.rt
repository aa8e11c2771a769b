ghost use Rattle.std.specs.Prelude.{◌≡◌, ◌∷◌, [], OnOk};
ghost use Rattle.carte_tree.specs.Tree.{level_of};
ghost use Rattle.carte_tree.specs.Code.{tree_of};
ghost use Rattle.carte_formula.specs.Begun.{chain_at, joined, ended};
ghost use Rattle.carte_formula.specs.Frames.{joint_at, frame_of, frames_of, EndsTo};
ghost use Rattle.carte_formula.specs.declared.frames.Joint.TheVariants as joints;

use crate::frames::building::{signed, whole_chain};
use crate::frames::{Frame, Joint, OpenChain, Stack};
use carte_tree::{Expr, Op};
use carte_value::NoMemory;
use std::alloc::Global;

/// An operator follows an operand: the chains that bind tighter are whole.
#[cycle(join)]
#[tactic(auto, using(crate::proofs::Joints::begun_at))]
#[inline(always)]
pub fn join(alloc: Global, op: Op, operand: Expr, stack: &mut Stack) -> Result<(), NoMemory>
    ensures { OnOk result (frames_of stack.new.frames.items ≡ joined op (tree_of operand) (frames_of stack.old.frames.items)) }
{
    match stack.joint(op.level()) {
        Joint::Begins => begin_chain(alloc, op, operand, stack),
        Joint::GoesOn => stack.lengthen(op, operand),
        Joint::Ends => match stack.pop() {
            Some(frame) => join_behind(alloc, op, operand, frame, stack),
            None => unreachable!(),
        },
    }
}

/// An operator behind an operand that ends what is newest.
#[cycle(join)]
fn join_behind(
    alloc: Global,
    op: Op,
    operand: Expr,
    frame: Frame,
    stack: &mut Stack,
) -> Result<(), NoMemory>
    requires { joint_at (level_of op) frame ≡ joints.Ends }
    ensures { OnOk result (frames_of stack.new.frames.items ≡ joined op (tree_of operand) (frame_of frame ∷ frames_of stack.old.frames.items)) }
{
    match frame {
        Frame::Sign(minus) => join(alloc, op, signed(alloc, minus, operand)?, stack),
        Frame::Chain(begun) => join(alloc, op, whole_chain(alloc, begun, operand)?, stack),
        _ => unreachable!(),
    }
}

#[inline(always)]
fn begin_chain(alloc: Global, op: Op, operand: Expr, stack: &mut Stack) -> Result<(), NoMemory>
    ensures { OnOk result (frames_of stack.new.frames.items ≡ chain_at (level_of op) (tree_of operand) [] op ∷ frames_of stack.old.frames.items) }
{
    stack.push(Frame::Chain(OpenChain {
        level: op.level(),
        first: operand,
        steps: Vec::new(alloc),
        last: op,
    }))
}

/// The text ends behind an operand. Mostly at most one chain ends with it.
#[inline(always)]
pub fn end(alloc: Global, operand: Expr, stack: &mut Stack) -> Result<Option<Expr>, NoMemory>
    ensures { EndsTo result (ended (tree_of operand) (frames_of stack.old.frames.items)) }
{
    match stack.pop_chain() {
        Some(begun) => end_whole(alloc, whole_chain(alloc, begun, operand)?, stack),
        None => end_whole(alloc, operand, stack),
    }
}

/// The same where nothing may be begun any more.
#[tactic(auto, using(crate::proofs::Joints::ended_whole))]
#[inline(always)]
fn end_whole(alloc: Global, operand: Expr, stack: &mut Stack) -> Result<Option<Expr>, NoMemory>
    ensures { EndsTo result (ended (tree_of operand) (frames_of stack.old.frames.items)) }
{
    if stack.is_empty() {
        return Ok(Some(operand));
    }
    end_inner(alloc, operand, stack)
}

/// The text ends behind an operand that may end signs and chains.
#[cycle(end)]
fn end_inner(alloc: Global, operand: Expr, stack: &mut Stack) -> Result<Option<Expr>, NoMemory>
    ensures { EndsTo result (ended (tree_of operand) (frames_of stack.old.frames.items)) }
{
    match stack.pop() {
        Some(frame) => end_behind(alloc, operand, frame, stack),
        None => Ok(Some(operand)),
    }
}

#[cycle(end)]
fn end_behind(
    alloc: Global,
    operand: Expr,
    frame: Frame,
    stack: &mut Stack,
) -> Result<Option<Expr>, NoMemory>
    ensures { EndsTo result (ended (tree_of operand) (frame_of frame ∷ frames_of stack.old.frames.items)) }
{
    match frame {
        Frame::Sign(minus) => end_inner(alloc, signed(alloc, minus, operand)?, stack),
        Frame::Chain(begun) => end_inner(alloc, whole_chain(alloc, begun, operand)?, stack),
        _ => Ok(None),
    }
}
