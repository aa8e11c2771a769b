ghost use Rattle.std.specs.Prelude.{◌≡◌, IfOk};
ghost use Rattle.carte_tree.specs.Code.{tree_of, chain_tree, args_tree, rest_steps, arg_tree};

use crate::boxed::{chain_of, neg_of};
use crate::{Arg, Args, Chain, Expr, Rest};
use carte_value::NoMemory;
use std::alloc::Global;

impl Expr {
    /// A second formula that equals this one.
    #[cycle(copy)]
    pub fn copy(&self, alloc: Global) -> Result<Expr, NoMemory>
        ensures { IfOk result (λ e. tree_of e ≡ tree_of self.now) }
    {
        match self {
            Expr::Number(number) => Ok(Expr::Number(*number)),
            Expr::Text(text) => Ok(Expr::Text(text.copy(alloc)?)),
            Expr::Ref(name) => Ok(Expr::Ref(name.copy(alloc)?)),
            Expr::Neg(operand) => neg_of(alloc, operand.copy(alloc)?),
            Expr::Chain(chain) => chain_of(alloc, chain.copy(alloc)?),
            Expr::Call(func, args) => Ok(Expr::Call(*func, args.copy(alloc)?)),
        }
    }
}

impl Chain {
    /// A second chain that equals this one.
    #[cycle(copy)]
    pub fn copy(&self, alloc: Global) -> Result<Chain, NoMemory>
        ensures { IfOk result (λ c. chain_tree c ≡ chain_tree self.now) }
    {
        let first = self.first.copy(alloc)?;
        let rest = self.rest.copy(alloc)?;
        Ok(Chain {
            level: self.level,
            first,
            rest,
        })
    }
}

impl Rest {
    /// A second list that equals this one.
    #[cycle(copy)]
    pub fn copy(&self, alloc: Global) -> Result<Rest, NoMemory>
        ensures { IfOk result (λ r. rest_steps r ≡ rest_steps self.now) }
    {
        let (op, operand) = &self.first;
        let first = (*op, operand.copy(alloc)?);
        let mut more = Vec::new(alloc);
        for (op, operand) in self.more.iter() {
            more.push((*op, operand.copy(alloc)?))?;
        }
        Ok(Rest { first, more })
    }
}

impl Args {
    /// A second list that equals this one.
    #[cycle(copy)]
    pub fn copy(&self, alloc: Global) -> Result<Args, NoMemory>
        ensures { IfOk result (λ a. args_tree a ≡ args_tree self.now) }
    {
        let mut items = Vec::new(alloc);
        for arg in self.items.iter() {
            items.push(arg.copy(alloc)?)?;
        }
        Ok(Args { items })
    }
}

impl Arg {
    /// A second argument that equals this one.
    #[cycle(copy)]
    pub fn copy(&self, alloc: Global) -> Result<Arg, NoMemory>
        ensures { IfOk result (λ a. arg_tree a ≡ arg_tree self.now) }
    {
        match self {
            Arg::One(expr) => Ok(Arg::One(expr.copy(alloc)?)),
            Arg::Cells(area) => Ok(Arg::Cells(*area)),
        }
    }
}
