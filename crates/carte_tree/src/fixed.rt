ghost use Rattle.std.specs.Prelude.{◌≡◌};
ghost use Rattle.carte_tree.specs.Code.{tree_of, chain_tree, rest_steps, args_tree, arg_tree};
ghost use Rattle.carte_tree.specs.Formula.{is_static_tree, is_free, steps_static, steps_free, args_static, args_free, arg_static, arg_free, args_allowed, branches_free, rule_of};

use crate::{Arg, Args, Chain, Expr, Func, Rest};

/// Whether all references are known before the formula is worked out: no reference or range stands in a branch of an
/// `IF`, and neither `INDIRECT` nor `GATHER` occurs. A reference in the condition of an `IF` is known.
pub fn is_static(expr: &Expr) -> bool
    ensures { result ≡ is_static_tree (tree_of expr.now) }
{
    static_expr(expr)
}

#[cycle(fixed)]
fn static_expr(expr: &Expr) -> bool
    ensures { result ≡ is_static_tree (tree_of expr.now) }
{
    match expr {
        Expr::Neg(operand) => static_expr(operand),
        Expr::Chain(chain) => static_chain(chain),
        Expr::Call(func, args) => allows(*func, args) && static_args(args),
        _ => true,
    }
}

#[cycle(fixed)]
fn static_chain(chain: &Chain) -> bool
    ensures { result ≡ is_static_tree (chain_tree chain.now) }
{
    static_expr(&chain.first) && static_rest(&chain.rest)
}

#[cycle(fixed)]
fn static_rest(rest: &Rest) -> bool
    ensures { result ≡ steps_static (rest_steps rest.now) }
{
    if !static_expr(&rest.first.1) {
        return false;
    }
    for (_, operand) in rest.more.iter() {
        if !static_expr(operand) {
            return false;
        }
    }
    true
}

#[cycle(fixed)]
fn static_args(args: &Args) -> bool
    ensures { result ≡ args_static (args_tree args.now) }
{
    for arg in args.items.iter() {
        if !static_arg(arg) {
            return false;
        }
    }
    true
}

#[cycle(fixed)]
fn static_arg(arg: &Arg) -> bool
    ensures { result ≡ arg_static (arg_tree arg.now) }
{
    match arg {
        Arg::One(expr) => static_expr(expr),
        Arg::Cells(_) => true,
    }
}

/// Whether the references among the arguments of a function are known.
fn allows(func: Func, args: &Args) -> bool
    ensures { result ≡ args_allowed (rule_of func) (args_tree args.now) }
{
    match func {
        Func::If => free_branches(args),
        Func::Indirect | Func::Gather => false,
        _ => true,
    }
}

fn free_branches(args: &Args) -> bool
    ensures { result ≡ branches_free (args_tree args.now) }
{
    let mut at = 1;
    while let Some(arg) = args.items.get(at) {
        if !free_arg(arg) {
            return false;
        }
        at += 1;
    }
    true
}

#[cycle(free)]
fn free_expr(expr: &Expr) -> bool
    ensures { result ≡ is_free (tree_of expr.now) }
{
    match expr {
        Expr::Ref(_) => false,
        Expr::Neg(operand) => free_expr(operand),
        Expr::Chain(chain) => free_chain(chain),
        Expr::Call(_, args) => free_args(args),
        _ => true,
    }
}

#[cycle(free)]
fn free_chain(chain: &Chain) -> bool
    ensures { result ≡ is_free (chain_tree chain.now) }
{
    free_expr(&chain.first) && free_rest(&chain.rest)
}

#[cycle(free)]
fn free_rest(rest: &Rest) -> bool
    ensures { result ≡ steps_free (rest_steps rest.now) }
{
    if !free_expr(&rest.first.1) {
        return false;
    }
    for (_, operand) in rest.more.iter() {
        if !free_expr(operand) {
            return false;
        }
    }
    true
}

#[cycle(free)]
fn free_args(args: &Args) -> bool
    ensures { result ≡ args_free (args_tree args.now) }
{
    for arg in args.items.iter() {
        if !free_arg(arg) {
            return false;
        }
    }
    true
}

#[cycle(free)]
fn free_arg(arg: &Arg) -> bool
    ensures { result ≡ arg_free (arg_tree arg.now) }
{
    match arg {
        Arg::One(expr) => free_expr(expr),
        Arg::Cells(_) => false,
    }
}
