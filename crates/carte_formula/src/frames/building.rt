ghost use Rattle.std.specs.Prelude.{◌≡◌, ◌++◌, ◌∷◌, [], ◌==◌, ◌&&◌, IfOk};
ghost use Rattle.carte_tree.specs.Tree.{chain, steps_of, signed, call, args_of, filled, is_if, called_tree};
ghost use Rattle.carte_formula.specs.Begun.{grown};
ghost use Rattle.carte_tree.specs.Code.{tree_of, chain_tree, rest_steps, terms_of, args_trees};

use crate::frames::OpenChain;
use crate::frames::lists::{add, with_last};
use carte_tree::{Arg, Args, Chain, Expr, Func, Level, Op, Rest, chain_of, neg_of};
use carte_value::NoMemory;
use std::alloc::Global;

/// The operand under a sign: a plus leaves no trace.
#[inline(always)]
pub fn signed(alloc: Global, minus: bool, operand: Expr) -> Result<Expr, NoMemory>
    ensures { IfOk result (λ e. tree_of e ≡ signed minus (tree_of operand)) }
{
    if minus {
        neg_of(alloc, operand)
    } else {
        Ok(operand)
    }
}

/// The operators and operands of a chain, with the last. Most chains have no other, and so no list.
#[inline(always)]
fn grow(mut steps: Vec<(Op, Expr)>, op: Op, operand: Expr) -> Result<Rest, NoMemory>
    ensures { IfOk result (λ r. rest_steps r ≡ steps_of (grown (terms_of steps.items) op (tree_of operand))) }
{
    let last = (op, operand);
    if steps.is_empty() {
        return Ok(Rest {
            first: last,
            more: steps,
        });
    }
    let first = steps.remove(0);
    let more = with_last(steps, last)?;
    Ok(Rest { first, more })
}

/// A chain that ends with this operand.
#[inline(always)]
pub fn whole_chain(alloc: Global, begun: OpenChain, operand: Expr) -> Result<Expr, NoMemory>
    ensures { IfOk result (λ e. tree_of e ≡ chain begun.level (tree_of begun.first) (steps_of (grown (terms_of begun.steps.items) begun.last (tree_of operand)))) }
{
    let rest = grow(begun.steps, begun.last, operand)?;
    chain_of(alloc, chain_with(begun.level, begun.first, rest))
}

#[inline(always)]
fn chain_with(level: Level, first: Expr, rest: Rest) -> Chain
    ensures { chain_tree result ≡ chain level (tree_of first) (rest_steps rest) }
{
    Chain { level, first, rest }
}

/// The arguments so far, with one more.
#[inline(always)]
pub fn with_arg(mut args: Vec<Arg>, arg: Arg) -> Result<Vec<Arg>, NoMemory>
    ensures { IfOk result (λ v. v.items ≡ args.items ++ arg ∷ []) }
{
    add(&mut args, arg)?;
    Ok(args)
}

/// A call with all its arguments, where the third one of `IF` may be left out and is 0.
#[inline(always)]
pub fn call_of(func: Func, args: Vec<Arg>) -> Result<Expr, NoMemory>
    ensures { IfOk result (λ e. tree_of e ≡ called_tree func (args_trees args.items)) }
{
    Ok(call_with(func, filled(func, args)?))
}

#[inline(always)]
fn call_with(func: Func, items: Vec<Arg>) -> Expr
    ensures { tree_of result ≡ call func (args_of (args_trees items.items)) }
{
    Expr::Call(func, Args { items })
}

#[inline(always)]
fn filled(func: Func, args: Vec<Arg>) -> Result<Vec<Arg>, NoMemory>
    ensures { IfOk result (λ v. args_trees v.items ≡ filled func (args_trees args.items)) }
{
    if wants_third(func, args.len()) {
        with_last(args, Arg::One(Expr::Number(0)))
    } else {
        Ok(args)
    }
}

#[inline(always)]
fn wants_third(func: Func, count: usize) -> bool
    ensures { result ≡ (is_if func && count == 2) }
{
    match func {
        Func::If => count == 2,
        _ => false,
    }
}
