ghost use Rattle.std.specs.Prelude.{IfOk};
ghost use Rattle.carte_tree.specs.Code.{tree_of};
ghost use Rattle.carte_tree.specs.Formula.{IsExpr, HasNames};
ghost use Rattle.carte_formula.specs.Whole.{Reads, as_tree};

use crate::parser::{Progress, formula_of};
use crate::{Expr, FormulaFault};
use carte_value::Kind;
use std::alloc::Global;

/// How many bytes a formula may have.
const MOST_BYTES: usize = 4096;

/// Room in which formulas are read one after the other: what one took for its brackets and chains stays for the next.
#[derive(Drop)]
pub struct Room {
    progress: Progress,
}

impl Room {
    /// Room that takes no memory before a formula is read.
    pub fn new(alloc: Global) -> Room {
        Room {
            progress: Progress::new(alloc),
        }
    }
}

/// Reads the text of a formula in a book of this kind, as it stands behind the `=` of a sheet's field or as it is in a
/// rule file. docs/FORMULAS-GRAMMAR.md has the grammar, and each fault with its place. Memory is wanted only for a text that isn't too long.
pub fn read(alloc: Global, kind: Kind, text: &str) -> Result<Expr, FormulaFault>
    ensures read { Reads kind text.now (as_tree result) }
    ensures formula { IfOk result (λ e. IsExpr (tree_of e)) }
    ensures names { IfOk result (λ e. HasNames kind (tree_of e)) }
{
    read_in(alloc, &mut Room::new(alloc), kind, text)
}

/// The same in room that was read in before, or wasn't. What stands in it doesn't matter, and a fault leaves it fit for the next text.
pub fn read_in(alloc: Global, room: &mut Room, kind: Kind, text: &str) -> Result<Expr, FormulaFault>
    ensures read { Reads kind text.now (as_tree result) }
    ensures formula { IfOk result (λ e. IsExpr (tree_of e)) }
    ensures names { IfOk result (λ e. HasNames kind (tree_of e)) }
{
    if text.len() > MOST_BYTES {
        return Err(FormulaFault::TooLong(text.len()));
    }
    formula_of(alloc, &mut room.progress, kind, text)
}
