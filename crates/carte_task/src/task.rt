ghost use Rattle.std.specs.Prelude.{◌≡◌, ℕ, List, [], true, IfOk, OnErr};
ghost use Rattle.carte_name.specs.declared.kind.Kind.{Kind as SomeKind};
ghost use Rattle.carte_tree.specs.Tree.{Tree};
ghost use Rattle.carte_tree.specs.Code.{tree_of};
ghost use Rattle.carte_tree.specs.Formula.{IsExpr};
ghost use Rattle.carte_value.specs.Asks.{firsts};
ghost use Rattle.carte_task.specs.Code.{exec};
ghost use Rattle.carte_task.specs.Mentions.{mentions_in, AsksOnly};

use crate::code::{Instr, copy_of};
use crate::mentioned::names_in;
use crate::{StaticTask, compile};
use carte_tree::{Expr, is_static, static_runs};
use carte_value::{Kind, Name, NoMemory, Seeded};
use std::alloc::Global;

/// How many instructions there is room for at first: most formulas have no more.
const FIRST_ROOM: usize = 8;

/// The code of a formula with the key whose value it is. Its runs keep their answers by the hasher.
#[derive(Drop)]
pub(crate) struct Routine {
    pub(crate) key: Name,
    pub(crate) kind: Kind,
    pub(crate) code: Vec<Instr>,
    pub(crate) hasher: Seeded,
}

impl Routine {
    ghost use Rattle.carte_task.specs.Tasks.{IsRoutineOf};

    pub(crate) fn of(
        alloc: Global,
        kind: Kind,
        key: &Name,
        expr: &Expr,
        hasher: Seeded,
    ) -> Result<Routine, NoMemory>
        requires { IsExpr (tree_of expr.now) }
        ensures { IfOk result (IsRoutineOf kind key.now (tree_of expr.now)) }
    {
        let key = key.copy(alloc)?;
        let mut code = Vec::with_capacity(alloc, FIRST_ROOM)?;
        compile::write(alloc, expr, &mut code)?;
        Ok(Routine {
            key,
            kind,
            code,
            hasher,
        })
    }
}

/// A formula with the key whose value it is, ready to be run.
#[derive(Drop)]
pub struct Task {
    pub(crate) routine: Routine,
    // Whether the formula is static. The code has lost it: a jump doesn't tell what it passes over.
    pub(crate) fixed: bool,
    ghost only: { fixed ≡ true → AsksOnly (firsts (mentions_in routine.code.items)) (exec routine.kind 0 routine.code.items []) },
}

impl Task {
    ghost use Rattle.carte_task.specs.Tasks.{IsTaskOf, is_fixed};
    ghost use Rattle.carte_task.specs.Statics.{IsStaticOf, HasParts};

    /// The task of a key's formula in a book of that kind. Its runs keep their answers by the hasher.
    pub fn of(
        alloc: Global,
        kind: Kind,
        key: &Name,
        expr: &Expr,
        hasher: Seeded,
    ) -> Result<Task, NoMemory>
        requires { IsExpr (tree_of expr.now) }
        ensures { IfOk result (IsTaskOf kind key.now (tree_of expr.now)) }
    {
        static_runs();
        let routine = Routine::of(alloc, kind, key, expr, hasher)?;
        Ok(Task {
            routine,
            fixed: is_static(expr),
        })
    }

    /// The same as a task that reads its references whatever their values are; none where the formula isn't static.
    pub fn as_static(&self, alloc: Global) -> Result<Option<StaticTask>, NoMemory>
        ensures refused { OnErr result (is_fixed self.now ≡ true) }
        ensures made { (kind : SomeKind) (k : List ℕ) (e : Tree) → IsTaskOf kind k e self.now → IfOk result (IsStaticOf kind k e) }
    {
        if !self.fixed {
            return Ok(None);
        }
        Ok(Some(self.parts(alloc)?))
    }

    // The key, the kind and the code, with the names in the code.
    fn parts(&self, alloc: Global) -> Result<StaticTask, NoMemory>
        requires { is_fixed self.now ≡ true }
        ensures { IfOk result (HasParts self.now) }
    {
        let routine = &self.routine;
        let key = routine.key.copy(alloc)?;
        let code = copy_of(alloc, routine.code.as_slice())?;
        let refs = names_in(alloc, code.as_slice(), routine.hasher)?;
        Ok(StaticTask {
            key,
            kind: routine.kind,
            code,
            refs,
            hasher: routine.hasher,
        })
    }
}
