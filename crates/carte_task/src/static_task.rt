ghost use Rattle.std.specs.Prelude.{◌≡◌, []};
ghost use Rattle.carte_value.specs.Asks.{firsts};
ghost use Rattle.carte_task.specs.Code.{exec};
ghost use Rattle.carte_task.specs.Mentions.{mentions_in, AsksOnly};

use crate::code::Instr;
use carte_value::{Kind, Name, Names, Seeded};

/// A task that reads the names that its formula mentions, whatever their values are.
#[derive(Drop)]
pub struct StaticTask {
    pub(crate) key: Name,
    pub(crate) kind: Kind,
    pub(crate) code: Vec<Instr>,
    pub(crate) refs: Names,
    pub(crate) hasher: Seeded,
    ghost mentioned: { refs ≡ firsts (mentions_in code.items) },
    ghost only: { AsksOnly refs (exec kind 0 code.items []) },
}
