ghost use Rattle.std.specs.Prelude.{◌≡◌};
ghost use Rattle.carte_tree.specs.Tree.{rank, level_of};

use crate::{Level, Op};

impl Op {
    /// The level of the chain that an operator stands in.
    pub fn level(self) -> Level
        ensures { result ≡ level_of self }
    {
        match self {
            Op::Join => Level::Concat,
            Op::Add | Op::Sub => Level::Sum,
            Op::Mul | Op::Div => Level::Product,
            _ => Level::Compare,
        }
    }
}

impl Level {
    /// How tightly its operators bind: the lower the tighter. This is Excel's order of operators.
    pub fn rank(self) -> u8
        ensures { result ≡ rank self }
    {
        match self {
            Level::Product => 0,
            Level::Sum => 1,
            Level::Concat => 2,
            Level::Compare => 3,
        }
    }
}
