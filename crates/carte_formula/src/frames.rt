// What of a formula is begun and not ended, and how it is ended.
//
// Behind some tokens stand signs, brackets and calls that nothing has closed yet, and chains of operators of one level whose last
// operator wants its operand: the frames (specs/Begun.antt), newest first on a `Stack`, which counts its depth. An operator behind an
// operand ends the signs and the chains that bind tighter, and goes on with a chain of its own level or begins one (`join`). The text's
// end ends all (`end`). Contracts see a frame with trees in place of the code's expressions (specs/Frames.antt). The newest frame is
// looked at in place and changed in place: one that was taken from the stack and put back would be copied twice for each token.
//
// Turned down: a stack of operators beside one of operands, since a chain keeps what it has, so that a sum of many terms is built
// once; and chains as pairs that lean to the left, flattened at the end, which takes memory for each operator, and a second walk.
ghost use Rattle.std.specs.Prelude.{◌≡◌, [], ◌∷◌, drop, slice_get, IsSome, OnOk};
ghost use Rattle.carte_formula.specs.Frames.{weight_of, depth_in, PopsSign, PopsCall, PopsChain, is_empty_at, is_called_at, is_chained_at, is_signed_at, called_at, called_by, may_range, chain_joint, joint_at, joint_of};

mod building;
mod chains;
mod lists;

use crate::frames::lists::add;
pub use building::{call_of, signed, whole_chain, with_arg};
use carte_tree::{Arg, Expr, Func, Level, Op};
use carte_value::NoMemory;
pub use chains::{end, join};
pub use lists::with_last;
use std::alloc::Global;
use std::collections::VecDeque;

/// What is begun and not ended.
#[derive(Debug, Drop)]
pub enum Frame {
    /// A unary sign; true for minus.
    Sign(bool),
    /// A chain whose last operator wants its operand.
    Chain(OpenChain),
    /// A bracket.
    Group,
    /// A call with the arguments so far.
    Call(Func, Vec<Arg>),
}

/// A chain whose last operator wants its operand.
#[derive(Debug, Drop)]
pub struct OpenChain {
    pub level: Level,
    pub first: Expr,
    pub steps: Vec<(Op, Expr)>,
    pub last: Op,
}

/// What an operator behind an operand does with the newest frame.
#[derive(Clone, Copy, Debug, PartialEq, Eq)]
pub enum Joint {
    /// It ends it.
    Ends,
    /// It goes on with its chain.
    GoesOn,
    /// It leaves it as it is, and begins a chain.
    Begins,
}

/// The frames round the present place, newest first, and how many brackets, calls and signs are among them.
#[derive(Drop)]
pub struct Stack {
    pub frames: VecDeque<Frame>,
    pub depth: usize,
    ghost counted: { depth ≡ depth_in frames.items },
}

impl Stack {
    ghost use Rattle.carte_tree.specs.Tree.{level_of};
    ghost use Rattle.carte_tree.specs.Code.{tree_of, arg_tree};
    ghost use Rattle.carte_formula.specs.Begun.{depth_of, joined};
    ghost use Rattle.carte_formula.specs.Frames.{frames_of, with_arg};
    ghost use Rattle.carte_formula.specs.declared.frames.Joint.TheVariants as joints;

    /// Nothing is begun.
    pub fn new(alloc: Global) -> Stack
        ensures { result.frames.items ≡ [] }
    {
        Stack {
            frames: VecDeque::new(alloc),
            depth: 0,
        }
    }

    /// Nothing is begun any more. Behind a whole formula nothing is anyway.
    #[tactic(auto, using(crate::proofs::FrameDepths::no_frames))]
    #[inline(always)]
    pub fn clear(&mut self)
        ensures { self.new.frames.items ≡ [] }
    {
        if !self.is_empty() {
            self.frames.clear();
            self.depth = 0;
        }
    }

    /// Whether nothing is begun.
    #[inline(always)]
    pub fn is_empty(&self) -> bool
        ensures { result ≡ is_empty_at self.now.frames.items }
    {
        match self.frames.front() {
            Some(_) => false,
            None => true,
        }
    }

    /// How many brackets, calls and signs stand round the present place.
    #[tactic(auto, using(crate::proofs::FrameDepths::depth_same))]
    pub fn depth(&self) -> usize
        ensures { result ≡ depth_of (frames_of self.now.frames.items) }
    {
        self.depth
    }

    /// A frame is begun.
    #[tactic(auto, using(crate::proofs::FrameDepths::depth_at_most))]
    #[inline(always)]
    pub fn push(&mut self, frame: Frame) -> Result<(), NoMemory>
        ensures { OnOk result (self.new.frames.items ≡ frame ∷ self.old.frames.items) }
    {
        self.frames.reserve(1)?;
        let weight = weight(&frame);
        self.frames.push_front_reserved(frame);
        self.depth += weight;
        Ok(())
    }

    /// Takes the newest frame away.
    #[inline(always)]
    pub fn pop(&mut self) -> Option<Frame>
        ensures frame { result ≡ slice_get self.old.frames.items 0 }
        ensures rest { self.new.frames.items ≡ drop 1 self.old.frames.items }
    {
        match self.frames.pop_front() {
            Some(frame) => {
                self.depth -= weight(&frame);
                Some(frame)
            }
            None => None,
        }
    }

    /// Whether the newest frame is a sign.
    #[inline(always)]
    pub fn is_signed(&self) -> bool
        ensures { result ≡ is_signed_at self.now.frames.items }
    {
        match self.frames.front() {
            Some(Frame::Sign(_)) => true,
            _ => false,
        }
    }

    /// Takes the newest frame away where it is a sign, and says which: true for minus.
    #[inline(always)]
    pub fn pop_sign(&mut self) -> Option<bool>
        ensures { PopsSign self.old.frames.items self.new.frames.items result }
    {
        let Some(Frame::Sign(minus)) = self.frames.front() else {
            return None;
        };
        let minus = *minus;
        self.frames.pop_front();
        self.depth -= 1;
        Some(minus)
    }

    /// Takes the newest frame away where it is a call.
    #[inline(always)]
    pub fn pop_call(&mut self) -> Option<(Func, Vec<Arg>)>
        ensures { PopsCall self.old.frames.items self.new.frames.items result }
    {
        if !self.is_called() {
            return None;
        }
        match self.frames.pop_front() {
            Some(Frame::Call(func, done)) => {
                self.depth -= 1;
                Some((func, done))
            }
            _ => unreachable!(),
        }
    }

    /// Takes the newest frame away where it is a chain.
    #[inline(always)]
    pub(crate) fn pop_chain(&mut self) -> Option<OpenChain>
        ensures { PopsChain self.old.frames.items self.new.frames.items result }
    {
        if !self.is_chained() {
            return None;
        }
        match self.frames.pop_front() {
            Some(Frame::Chain(begun)) => Some(begun),
            _ => unreachable!(),
        }
    }

    #[inline(always)]
    fn is_chained(&self) -> bool
        ensures { result ≡ is_chained_at self.now.frames.items }
    {
        match self.frames.front() {
            Some(Frame::Chain(_)) => true,
            _ => false,
        }
    }

    #[inline(always)]
    fn is_called(&self) -> bool
        ensures { result ≡ is_called_at self.now.frames.items }
    {
        match self.frames.front() {
            Some(Frame::Call(_, _)) => true,
            _ => false,
        }
    }

    /// The newest frame's function and how many arguments it has with one more, where it is a call.
    #[inline(always)]
    pub fn called(&self) -> Option<(Func, usize)>
        ensures { result ≡ called_at self.now.frames.items }
    {
        match self.frames.front() {
            Some(Frame::Call(func, done)) => Some((*func, done.len() + 1)),
            _ => None,
        }
    }

    /// Whether the newest frame is a call among whose arguments a range may stand.
    #[inline(always)]
    pub fn takes_ranges(&self) -> bool
        ensures { result ≡ may_range self.now.frames.items }
    {
        match self.frames.front() {
            Some(Frame::Call(func, _)) => func.takes_ranges(),
            _ => false,
        }
    }

    /// What an operator of this level does with the newest frame.
    #[inline(always)]
    pub(crate) fn joint(&self, level: Level) -> Joint
        ensures { result ≡ joint_of level self.now.frames.items }
    {
        match self.frames.front() {
            Some(Frame::Sign(_)) => Joint::Ends,
            Some(Frame::Chain(begun)) => chain_joint(begun.level, level),
            _ => Joint::Begins,
        }
    }

    /// The newest frame, a chain, goes on with an operand and an operator.
    #[inline(always)]
    pub(crate) fn lengthen(&mut self, op: Op, operand: Expr) -> Result<(), NoMemory>
        requires { joint_of (level_of op) self.old.frames.items ≡ joints.GoesOn }
        ensures { OnOk result (frames_of self.new.frames.items ≡ joined op (tree_of operand) (frames_of self.old.frames.items)) }
    {
        match self.frames.front_mut() {
            Some(frame) => frame.lengthen(op, operand),
            None => unreachable!(),
        }
    }

    /// The newest frame, a call, has an argument more.
    #[inline(always)]
    pub fn add_arg(&mut self, arg: Arg) -> Result<(), NoMemory>
        requires { IsSome (called_at self.old.frames.items) }
        ensures { OnOk result (frames_of self.new.frames.items ≡ with_arg (arg_tree arg) (frames_of self.old.frames.items)) }
    {
        match self.frames.front_mut() {
            Some(frame) => frame.add_arg(arg),
            None => unreachable!(),
        }
    }
}

impl Frame {
    ghost use Rattle.std.specs.Prelude.{List};
    ghost use Rattle.carte_tree.specs.Tree.{level_of};
    ghost use Rattle.carte_tree.specs.Code.{tree_of, arg_tree};
    ghost use Rattle.carte_formula.specs.Begun.{Frame as Begun, joined};
    ghost use Rattle.carte_formula.specs.Frames.{frame_of, with_arg};
    ghost use Rattle.carte_formula.specs.declared.frames.Joint.TheVariants as joints;

    /// A chain goes on with an operand and an operator.
    #[tactic(auto, using(crate::proofs::Joints::chain_longer))]
    #[inline(always)]
    fn lengthen(&mut self, op: Op, operand: Expr) -> Result<(), NoMemory>
        requires { joint_at (level_of op) self.old ≡ joints.GoesOn }
        ensures weight { weight_of self.new ≡ weight_of self.old }
        ensures longer { OnOk result ((S : List Begun) → frame_of self.new ∷ S ≡ joined op (tree_of operand) (frame_of self.old ∷ S)) }
    {
        match self {
            Frame::Chain(begun) => begun.lengthen(op, operand),
            _ => unreachable!(),
        }
    }

    /// A call has an argument more.
    #[inline(always)]
    fn add_arg(&mut self, arg: Arg) -> Result<(), NoMemory>
        requires { IsSome (called_by self.old) }
        ensures weight { weight_of self.new ≡ weight_of self.old }
        ensures longer { OnOk result ((S : List Begun) → frame_of self.new ∷ S ≡ with_arg (arg_tree arg) (frame_of self.old ∷ S)) }
    {
        match self {
            Frame::Call(_, done) => add(done, arg),
            _ => unreachable!(),
        }
    }
}

impl OpenChain {
    ghost use Rattle.carte_tree.specs.Code.{tree_of, terms_of};
    ghost use Rattle.carte_formula.specs.Begun.{chain_at, grown};
    ghost use Rattle.carte_formula.specs.Frames.{open_frame};

    /// The last operator has its operand, and another operator follows.
    #[inline(always)]
    fn lengthen(&mut self, op: Op, operand: Expr) -> Result<(), NoMemory>
        ensures { OnOk result (open_frame self.new ≡ chain_at self.old.level (tree_of self.old.first) (grown (terms_of self.old.steps.items) self.old.last (tree_of operand)) op) }
    {
        add(&mut self.steps, (self.last, operand))?;
        self.last = op;
        Ok(())
    }
}

/// How an operator goes on with a chain of lower rank than its own, of the same, or of a higher.
#[inline(always)]
fn chain_joint(chain: Level, level: Level) -> Joint
    ensures { result ≡ chain_joint chain level }
{
    if chain.rank() < level.rank() {
        return Joint::Ends;
    }
    if chain.rank() == level.rank() {
        Joint::GoesOn
    } else {
        Joint::Begins
    }
}

/// How many levels a frame adds.
#[inline(always)]
fn weight(frame: &Frame) -> usize
    ensures { result ≡ weight_of frame.now }
{
    match frame {
        Frame::Chain(_) => 0,
        _ => 1,
    }
}
