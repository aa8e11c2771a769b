ghost use Rattle.std.specs.Prelude.{◌≡◌, IfOk, OnOk};
ghost use Rattle.carte_value.specs.Areas.{IsArea, cells_of};
ghost use Rattle.carte_value.specs.Firsts.{seen_all};
ghost use Rattle.carte_tree.specs.Code.{tree_of, chain_tree, rest_steps, args_tree, arg_tree};
ghost use Rattle.carte_tree.specs.Formula.{IsExpr, AreChainSteps, AreCallArgs, IsCallArg, mentions, steps_mentions, args_mentions, arg_mentions, refs_of};

use crate::{Arg, Args, Chain, Expr, Rest};
use carte_value::{Area, Names, NoMemory, Numbering, Seeded};
use std::alloc::Global;

/// The names that a formula refers to, each once, in the order of their first places. Ranges are spelt out row by row,
/// each row from left to right. The names that were seen are hashed by `hasher`.
pub fn refs(alloc: Global, expr: &Expr, hasher: Seeded) -> Result<Names, NoMemory>
    requires { IsExpr (tree_of expr.now) }
    ensures { IfOk result (λ ks. ks ≡ refs_of (tree_of expr.now)) }
{
    let mut seen = Numbering::new(alloc, hasher);
    see_expr(alloc, expr, &mut seen)?;
    seen.list(alloc)
}

#[cycle(refs)]
fn see_expr(alloc: Global, expr: &Expr, seen: &mut Numbering) -> Result<(), NoMemory>
    requires { IsExpr (tree_of expr.now) }
    ensures { OnOk result (seen.new ≡ seen_all seen.old (mentions (tree_of expr.now))) }
{
    match expr {
        Expr::Number(_) | Expr::Text(_) => Ok(()),
        Expr::Ref(name) => {
            seen.give(name)?;
            Ok(())
        }
        Expr::Neg(operand) => see_expr(alloc, operand, seen),
        Expr::Chain(chain) => see_chain(alloc, chain, seen),
        Expr::Call(_, args) => see_args(alloc, args, seen),
    }
}

#[cycle(refs)]
fn see_chain(alloc: Global, chain: &Chain, seen: &mut Numbering) -> Result<(), NoMemory>
    requires { IsExpr (chain_tree chain.now) }
    ensures { OnOk result (seen.new ≡ seen_all seen.old (mentions (chain_tree chain.now))) }
{
    see_expr(alloc, &chain.first, seen)?;
    see_rest(alloc, &chain.rest, seen)
}

#[cycle(refs)]
fn see_rest(alloc: Global, rest: &Rest, seen: &mut Numbering) -> Result<(), NoMemory>
    requires { AreChainSteps (rest_steps rest.now) }
    ensures { OnOk result (seen.new ≡ seen_all seen.old (steps_mentions (rest_steps rest.now))) }
{
    see_expr(alloc, &rest.first.1, seen)?;
    for (_, operand) in rest.more.iter() {
        see_expr(alloc, operand, seen)?;
    }
    Ok(())
}

#[cycle(refs)]
fn see_args(alloc: Global, args: &Args, seen: &mut Numbering) -> Result<(), NoMemory>
    requires { AreCallArgs (args_tree args.now) }
    ensures { OnOk result (seen.new ≡ seen_all seen.old (args_mentions (args_tree args.now))) }
{
    for arg in args.items.iter() {
        see_arg(alloc, arg, seen)?;
    }
    Ok(())
}

#[cycle(refs)]
fn see_arg(alloc: Global, arg: &Arg, seen: &mut Numbering) -> Result<(), NoMemory>
    requires { IsCallArg (arg_tree arg.now) }
    ensures { OnOk result (seen.new ≡ seen_all seen.old (arg_mentions (arg_tree arg.now))) }
{
    match arg {
        Arg::One(expr) => see_expr(alloc, expr, seen),
        Arg::Cells(area) => see_cells(alloc, area, seen),
    }
}

fn see_cells(alloc: Global, area: &Area, seen: &mut Numbering) -> Result<(), NoMemory>
    requires { IsArea area.now }
    ensures { OnOk result (seen.new ≡ seen_all seen.old (cells_of area.now)) }
{
    let names = area.names(alloc)?;
    for name in names.as_slice() {
        seen.give(name)?;
    }
    Ok(())
}
