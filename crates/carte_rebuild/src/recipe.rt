ghost use Rattle.std.specs.Prelude.{◌≡◌, is_ok, IfOk, if◌then◌else◌};
ghost use Rattle.std.specs.Arc.{arc_value};
ghost use Rattle.carte_tree.specs.Code.{tree_of};
ghost use Rattle.carte_tree.specs.Formula.{IsExpr};
ghost use Rattle.carte_book.specs.Alike.{expr_alike};
ghost use Rattle.carte_book.specs.Book.{book_view};
ghost use Rattle.carte_book.specs.Needs.{IsRule};
ghost use Rattle.carte_effect.specs.Ledger.{with_start};

use carte_book::Book;
use carte_effect::Runs;
use carte_task::Machine;
use carte_tree::Expr;
use carte_value::{Kind, Name, NoMemory, Seeded};
use std::alloc::Global;
use std::sync::Arc;

/// What the task of a rule is made of. The task has code of its own, which costs more than all checks of a key, so it is
/// made where it is known that it runs.
#[derive(Drop)]
pub(crate) struct Recipe {
    pub(crate) key: Name,
    kind: Kind,
    formula: Arc<Expr>,
    hasher: Seeded,
    ghost is_read: { IsExpr (tree_of (arc_value formula)) } by { expr_alike (tree_of (arc_value formula)) },
}

impl Recipe {
    ghost use Rattle.carte_task.specs.Machines.{state_of, started};
    ghost use Rattle.carte_rebuild.specs.Recipes.{asks_in, IsRecipeOf};

    /// That of the task of a rule.
    pub(crate) fn of(alloc: Global, book: &Book, key: &Name) -> Result<Recipe, NoMemory>
        requires { IsRule (book_view book.now) key.now }
        ensures { IfOk result (IsRecipeOf (book_view book.now) key.now) }
    {
        let key_copy = key.copy(alloc)?;
        let formula = book.formula(key)?;
        Ok(Recipe {
            key: key_copy,
            kind: book.kind(),
            formula,
            hasher: book.hasher(),
        })
    }

    /// The task is made, and started.
    pub(crate) fn start(&self, alloc: Global, runs: &mut Runs) -> Result<Machine, NoMemory>
        ensures machine { IfOk result (λ m. state_of m ≡ started self.now.key (asks_in self.now)) }
        ensures runs { runs.new ≡ (if is_ok result then with_start runs.old self.now.key else runs.old) }
    {
        Machine::of(
            alloc,
            self.kind,
            &self.key,
            &self.formula,
            self.hasher,
            runs,
        )
    }
}
