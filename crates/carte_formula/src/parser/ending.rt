ghost use Rattle.std.specs.Prelude.{[], Ok, Option};
ghost use Rattle.carte_tree.specs.Code.{tree_of};
ghost use Rattle.carte_formula.specs.Parser.{reached};
ghost use Rattle.carte_lexer.specs.Takes.{ReadsTo};
ghost use Rattle.carte_formula.specs.Whole.{with_width};
ghost use Rattle.carte_formula.specs.Resumed.{resumed};

use crate::parser::states::Parser;
use crate::parser::steps::finish;
use crate::{Expr, FormulaFault};
use carte_lexer::Ranges;
use std::alloc::Global;

/// The formula where a text of so many bytes ends.
pub fn whole(
    alloc: Global,
    parser: &mut Parser,
    ranges: &Ranges,
    size: usize,
) -> Result<Expr, FormulaFault>
    ensures { ReadsTo result (resumed (reached parser.old) ranges.now size (Ok [])) }
{
    match finish(alloc, parser)? {
        Some(formula) => not_wide(formula, ranges.too_wide()),
        None => Err(FormulaFault::BadSyntax(size)),
    }
}

fn not_wide(formula: Expr, too_wide: Option<usize>) -> Result<Expr, FormulaFault>
    ensures { ReadsTo result (with_width (Ok (tree_of formula)) too_wide) }
{
    match too_wide {
        Some(place) => Err(FormulaFault::TooWide(place)),
        None => Ok(formula),
    }
}
