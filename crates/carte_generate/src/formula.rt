ghost use Rattle.std.specs.Prelude.{◌≡◌, IfOk, IsTrue};
ghost use Rattle.carte_name.specs.declared.kind.Kind.TheVariants.{Rules};
ghost use Rattle.carte_name.specs.Names.{is_rule_name};
ghost use Rattle.carte_tree.specs.Tree.{call, args_of, one, ref};
ghost use Rattle.carte_tree.specs.Code.{tree_of, chain_tree, args_trees, arg_tree};
ghost use Rattle.carte_tree.specs.Formula.{IsExpr, HasNames};
ghost use Rattle.carte_generate.specs.Generated.{difference, minus, of_two};

use carte_tree::{Arg, Args, Chain, Expr, Func, Level, Op, Rest, chain_of};
use carte_value::{Name, NoMemory};
use std::alloc::Global;

/// The formula `MAX(a,b)-MIN(a,b)` over two names of rule files.
pub(crate) fn difference(alloc: Global, a: Name, b: Name) -> Result<Expr, NoMemory>
    requires first { IsTrue (is_rule_name a) }
    requires second { IsTrue (is_rule_name b) }
    ensures expr { IfOk result (λ e. IsExpr (tree_of e)) }
    ensures names { IfOk result (λ e. HasNames Rules (tree_of e)) }
    ensures formula { IfOk result (λ e. tree_of e ≡ difference a b) }
{
    let least = of_two(alloc, Func::Min, a.copy(alloc)?, b.copy(alloc)?)?;
    let greatest = of_two(alloc, Func::Max, a, b)?;
    chain_of(alloc, minus(alloc, greatest, least))
}

fn minus(alloc: Global, greatest: Expr, least: Expr) -> Chain
    ensures { chain_tree result ≡ minus (tree_of greatest) (tree_of least) }
{
    let rest = Rest {
        first: (Op::Sub, least),
        more: Vec::new(alloc),
    };
    Chain {
        level: Level::Sum,
        first: greatest,
        rest,
    }
}

fn of_two(alloc: Global, func: Func, a: Name, b: Name) -> Result<Expr, NoMemory>
    ensures { IfOk result (λ e. tree_of e ≡ of_two func a b) }
{
    let mut items = Vec::with_capacity(alloc, 2)?;
    items.push(reference(a))?;
    items.push(reference(b))?;
    Ok(call_with(func, items))
}

fn reference(name: Name) -> Arg
    ensures { arg_tree result ≡ one (ref name) }
{
    Arg::One(Expr::Ref(name))
}

fn call_with(func: Func, items: Vec<Arg>) -> Expr
    ensures { tree_of result ≡ call func (args_of (args_trees items.items)) }
{
    Expr::Call(func, Args { items })
}
