ghost use Rattle.std.specs.Prelude.{◌≡◌, IfOk};
ghost use Rattle.std.specs.FinMap.{empty};
ghost use Rattle.toml.specs.Data.{Data};
ghost use Rattle.toml.specs.View.{view, table_view};
ghost use Rattle.carte_rules.specs.Drafts.{Holds};
ghost use Rattle.carte_rules.specs.Reading.{Content, inputs_into, value_of};
ghost use Rattle.carte_rules.specs.Steps.{Leaves, LeavesInput};

use crate::draft::Draft;
use crate::names::{name_of, twice};
use carte_book::{AddFault, BookFault};
use carte_value::{NoMemory, Text, Value};
use std::alloc::Global;
use toml::Table;

/// Puts all inputs into a draft without keys.
pub(crate) fn read_inputs(alloc: Global, table: Table, draft: &mut Draft) -> Result<(), BookFault>
    requires { Holds draft.old empty }
    ensures { Leaves (inputs_into (table_view table) empty) draft.new result }
{
    for (key, value) in table {
        read_input(alloc, key.as_str(), value_of(value), draft)?;
    }
    Ok(())
}

/// Puts the input at a key, where the value is what such data stand for. Something stands there already only where the keys
/// come from lines as they stand.
pub(crate) fn read_input(
    alloc: Global,
    key: &str,
    value: Result<Option<Value>, NoMemory>,
    draft: &mut Draft,
) -> Result<(), BookFault>
    ensures { (m : Content) (d : Data) → IfOk value (λ found. found ≡ value_of d) → Holds draft.old m → LeavesInput key.now d m draft.new result }
{
    match name_of(alloc, key) {
        Ok(name) => match value {
            Ok(Some(value)) => match draft.keys.add_input(name, value) {
                Ok(()) => Ok(()),
                Err(AddFault::Twice) => Err(twice(alloc, key)),
                Err(_) => Err(BookFault::NoMemory),
            },
            Ok(None) => Err(BookFault::BadValue(name)),
            Err(_) => Err(BookFault::NoMemory),
        },
        Err(fault) => Err(fault),
    }
}

fn value_of(value: toml::Value) -> Result<Option<Value>, NoMemory>
    ensures { IfOk result (λ found. found ≡ value_of (view value)) }
{
    match value {
        toml::Value::Integer(number) => Ok(Some(Value::Number(number))),
        toml::Value::String(text) => match Text::made(text)? {
            Some(text) => Ok(Some(Value::Text(text))),
            None => Ok(None),
        },
        _ => Ok(None),
    }
}
