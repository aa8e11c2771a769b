ghost use Rattle.std.specs.Prelude.{◌≡◌, IfOk, OnOk};
ghost use Rattle.std.specs.List.{list_any};
ghost use Rattle.carte_name.specs.Names.{name_eq};
ghost use Rattle.carte_value.specs.Firsts.{seen_also, seen_all};
ghost use Rattle.carte_tree.specs.Code.{tree_of, chain_tree, rest_steps, args_tree, arg_tree};
ghost use Rattle.carte_tree.specs.Formula.{IsExpr, AreChainSteps, AreCallArgs, IsCallArg, mentions, steps_mentions, args_mentions, arg_mentions, refs_of};

use carte_tree::{Arg, Args, Chain, Expr, Rest, refs};
use carte_value::{Name, Names, NoMemory, Seeded};
use std::alloc::Global;

/// The most names that are told apart one by one.
const FEW: usize = 8;

/// No short list was made: it would be too long, or there was no memory.
#[derive(Drop)]
struct NotFew;

impl From<NoMemory> for NotFew {
    fn from(_: NoMemory) -> NotFew {
        NotFew
    }
}

/// The names that a formula refers to, as `refs` has them. Most formulas refer to few, and for these there is no set.
pub(crate) fn references(alloc: Global, formula: &Expr, hasher: Seeded) -> Result<Names, NoMemory>
    requires { IsExpr (tree_of formula.now) }
    ensures { IfOk result (λ ks. ks ≡ refs_of (tree_of formula.now)) }
{
    let mut seen = Names::new(alloc);
    match see_expr(alloc, formula, &mut seen) {
        Ok(()) => Ok(seen),
        Err(NotFew) => refs(alloc, formula, hasher),
    }
}

#[cycle(seen)]
fn see_expr(alloc: Global, expr: &Expr, seen: &mut Names) -> Result<(), NotFew>
    requires { IsExpr (tree_of expr.now) }
    ensures { OnOk result (seen.new ≡ seen_all seen.old (mentions (tree_of expr.now))) }
{
    match expr {
        Expr::Number(_) | Expr::Text(_) => Ok(()),
        Expr::Ref(name) => see(alloc, name, seen),
        Expr::Neg(operand) => see_expr(alloc, operand, seen),
        Expr::Chain(chain) => see_chain(alloc, chain, seen),
        Expr::Call(_, args) => see_args(alloc, args, seen),
    }
}

#[cycle(seen)]
fn see_chain(alloc: Global, chain: &Chain, seen: &mut Names) -> Result<(), NotFew>
    requires { IsExpr (chain_tree chain.now) }
    ensures { OnOk result (seen.new ≡ seen_all seen.old (mentions (chain_tree chain.now))) }
{
    see_expr(alloc, &chain.first, seen)?;
    see_rest(alloc, &chain.rest, seen)
}

#[cycle(seen)]
fn see_rest(alloc: Global, rest: &Rest, seen: &mut Names) -> Result<(), NotFew>
    requires { AreChainSteps (rest_steps rest.now) }
    ensures { OnOk result (seen.new ≡ seen_all seen.old (steps_mentions (rest_steps rest.now))) }
{
    see_expr(alloc, &rest.first.1, seen)?;
    for (_, operand) in rest.more.iter() {
        see_expr(alloc, operand, seen)?;
    }
    Ok(())
}

#[cycle(seen)]
fn see_args(alloc: Global, args: &Args, seen: &mut Names) -> Result<(), NotFew>
    requires { AreCallArgs (args_tree args.now) }
    ensures { OnOk result (seen.new ≡ seen_all seen.old (args_mentions (args_tree args.now))) }
{
    for arg in args.items.iter() {
        see_arg(alloc, arg, seen)?;
    }
    Ok(())
}

#[cycle(seen)]
fn see_arg(alloc: Global, arg: &Arg, seen: &mut Names) -> Result<(), NotFew>
    requires { IsCallArg (arg_tree arg.now) }
    ensures { OnOk result (seen.new ≡ seen_all seen.old (arg_mentions (arg_tree arg.now))) }
{
    match arg {
        Arg::One(expr) => see_expr(alloc, expr, seen),
        Arg::Cells(_) => Err(NotFew),
    }
}

fn see(alloc: Global, name: &Name, seen: &mut Names) -> Result<(), NotFew>
    ensures { OnOk result (seen.new ≡ seen_also seen.old name.now) }
{
    if has(seen.as_slice(), name) {
        return Ok(());
    }
    if seen.len() >= FEW {
        return Err(NotFew);
    }
    seen.push(name.copy(alloc)?)?;
    Ok(())
}

fn has(names: &[Name], name: &Name) -> bool
    ensures { result ≡ list_any (name_eq name.now) names.now }
{
    names.iter().any(|other| name == other)
}
