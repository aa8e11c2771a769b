ghost use Rattle.std.specs.Prelude.{◌≡◌, ℕ, List, None, Ok, Err};
ghost use Rattle.toml.specs.Data.{Data, string, as_str};
ghost use Rattle.toml.specs.View.{view, table_view};
ghost use Rattle.carte_name.specs.declared.kind.Kind.TheVariants.{Rules};
ghost use Rattle.carte_tree.specs.Code.{tree_of};
ghost use Rattle.carte_tree.specs.Formula.{IsExpr, HasNames};
ghost use Rattle.carte_formula.specs.Whole.{Reads, IsTold};
ghost use Rattle.carte_rules.specs.Drafts.{Holds};
ghost use Rattle.carte_rules.specs.Reading.{Content, RuleAt};
ghost use Rattle.carte_rules.specs.Steps.{IsCause, LeavesRule, LeavesRules};

use crate::draft::Draft;
use crate::names::{name_of, new_name, twice};
use carte_book::{AddFault, BookFault};
use carte_formula::{FormulaFault, Room, read_in};
use carte_tree::Expr;
use carte_value::Kind;
use std::alloc::Global;
use toml::{Table, Value};

/// Puts all rules into the draft.
pub(crate) fn read_formulas(alloc: Global, table: Table, draft: &mut Draft) -> Result<(), BookFault>
    ensures { (m : Content) → Holds draft.old m → LeavesRules (table_view table) m draft.new result }
{
    let mut room = Room::new(alloc);
    for (key, value) in table {
        read_rule(alloc, &mut room, key.as_str(), &value, draft)?;
    }
    Ok(())
}

fn read_rule(
    alloc: Global,
    room: &mut Room,
    key: &str,
    value: &Value,
    draft: &mut Draft,
) -> Result<(), BookFault>
    ensures { (m : Content) → Holds draft.old m → LeavesRule key.now (view value.now) m draft.new result }
{
    match value.as_str() {
        Some(text) => read_formula(alloc, room, key, text, draft),
        None => Err(no_text(alloc, key, draft)),
    }
}

/// The fault of a rule whose value is no text.
pub(crate) fn no_text(alloc: Global, key: &str, draft: &Draft) -> BookFault
    ensures { (m : Content) (d : Data) → Holds draft.now m → as_str d ≡ None → IsCause result → RuleAt key.now d m (Err result) }
{
    match new_name(alloc, key, draft) {
        Ok(name) => BookFault::BadValue(name),
        Err(fault) => fault,
    }
}

/// Puts the rule of a text at the name that a key is, where nothing stands there: whether something does is seen as
/// it is put, so a text is read first, and its fault comes after that of the name.
pub(crate) fn read_formula(
    alloc: Global,
    room: &mut Room,
    key: &str,
    text: &str,
    draft: &mut Draft,
) -> Result<(), BookFault>
    ensures { (m : Content) → Holds draft.old m → LeavesRule key.now (string text.now) m draft.new result }
{
    match read_in(alloc, room, Kind::Rules, text) {
        Ok(expr) => put_formula(alloc, key, expr, draft),
        Err(FormulaFault::NoMemory) => Err(BookFault::NoMemory),
        Err(fault) => Err(no_formula(alloc, key, fault, draft)),
    }
}

fn put_formula(alloc: Global, key: &str, expr: Expr, draft: &mut Draft) -> Result<(), BookFault>
    requires formula { IsExpr (tree_of expr) }
    requires names { HasNames Rules (tree_of expr) }
    ensures { (m : Content) (text : List ℕ) → Holds draft.old m → Reads Rules text (Ok (tree_of expr)) → LeavesRule key.now (string text) m draft.new result }
{
    match name_of(alloc, key) {
        Ok(name) => match draft.keys.add_rule(name, expr) {
            Ok(()) => Ok(()),
            Err(AddFault::Twice) => Err(twice(alloc, key)),
            Err(_) => Err(BookFault::NoMemory),
        },
        Err(fault) => Err(fault),
    }
}

// The fault of a rule whose text is no formula.
fn no_formula(alloc: Global, key: &str, fault: FormulaFault, draft: &Draft) -> BookFault
    requires { IsTold (Err fault) }
    ensures { (m : Content) (text : List ℕ) → Holds draft.now m → Reads Rules text (Err fault) → IsCause result → RuleAt key.now (string text) m (Err result) }
{
    match new_name(alloc, key, draft) {
        Ok(name) => BookFault::Formula(name, fault),
        Err(refused) => refused,
    }
}
