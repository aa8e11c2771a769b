ghost use Rattle.std.specs.Prelude.{◌≡◌, IfOk};
ghost use Rattle.carte_tree.specs.Tree.{neg};
ghost use Rattle.carte_tree.specs.Code.{tree_of, chain_tree};

use crate::{Chain, Expr};
use carte_value::NoMemory;
use std::alloc::Global;

/// The formula with a minus before it.
pub fn neg_of(alloc: Global, operand: Expr) -> Result<Expr, NoMemory>
    ensures { IfOk result (λ e. tree_of e ≡ neg (tree_of operand)) }
{
    Ok(Expr::Neg(Box::new(alloc, operand)?))
}

/// A chain as a formula.
pub fn chain_of(alloc: Global, chain: Chain) -> Result<Expr, NoMemory>
    ensures { IfOk result (λ e. tree_of e ≡ chain_tree chain) }
{
    Ok(Expr::Chain(Box::new(alloc, chain)?))
}
