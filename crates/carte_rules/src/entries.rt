// From entries of plain lines to a draft, as from the tables of a document.
ghost use Rattle.std.specs.Prelude.{◌≡◌, IfOk};
ghost use Rattle.std.specs.FinMap.{empty};
ghost use Rattle.std.specs.List.Sorted.{IsStrictlySortedBy};
ghost use Rattle.carte_name.specs.Names.{name_cmp};
ghost use Rattle.carte_rules.specs.Drafts.{Holds};
ghost use Rattle.carte_rules.specs.Entries.{data_of, keys_of, members_of, plain_view};
ghost use Rattle.carte_rules.specs.Reading.{Content, inputs_into, InTables, value_of};
ghost use Rattle.carte_rules.specs.Steps.{Answers, Leaves, LeavesInput, LeavesRule, LeavesRules};

use crate::draft::Draft;
use crate::entry::{Entry, Held, PlainTables};
use crate::inputs::read_input;
use crate::rules::{no_text, read_formula};
use carte_book::{Book, BookFault};
use carte_formula::Room;
use carte_value::{NoMemory, Seeded, Text, TextFault, Value};
use std::alloc::Global;

/// The book of all entries, or the first fault of them.
pub(crate) fn put_tables(
    alloc: Global,
    tables: &PlainTables<'_>,
    hasher: Seeded,
) -> Result<Book, BookFault>
    requires { IsStrictlySortedBy name_cmp (keys_of tables.now.inputs.items) }
    ensures { Answers (InTables (plain_view tables.now)) result }
{
    let keys = tables.inputs.len().saturating_add(tables.rules.len());
    let mut draft = Draft::new(alloc, keys, hasher)?;
    put_inputs(alloc, &tables.inputs, &mut draft)?;
    put_rules(alloc, &tables.rules, &mut draft)?;
    draft.finish()
}

// Puts all inputs into a draft without keys.
fn put_inputs(alloc: Global, entries: &[Entry<'_>], draft: &mut Draft) -> Result<(), BookFault>
    requires empty { Holds draft.old empty }
    requires sorted { IsStrictlySortedBy name_cmp (keys_of entries.now) }
    ensures { Leaves (inputs_into (members_of entries.now) empty) draft.new result }
{
    for entry in entries {
        put_input(alloc, entry, draft)?;
    }
    Ok(())
}

/// Puts an input.
pub(crate) fn put_input(
    alloc: Global,
    entry: &Entry<'_>,
    draft: &mut Draft,
) -> Result<(), BookFault>
    ensures { (m : Content) → Holds draft.old m → LeavesInput entry.now.key.now (data_of entry.now.held) m draft.new result }
{
    read_input(alloc, entry.key, value_of(alloc, entry.held), draft)
}

fn value_of(alloc: Global, held: Held<'_>) -> Result<Option<Value>, NoMemory>
    ensures { IfOk result (λ found. found ≡ value_of (data_of held.entry)) }
{
    match held {
        Held::Number(number) => Ok(Some(Value::Number(number))),
        Held::Text(text) => match Text::of(alloc, text) {
            Ok(text) => Ok(Some(Value::Text(text))),
            Err(TextFault::TooLong(_)) => Ok(None),
            Err(TextFault::NoMemory) => Err(NoMemory),
        },
    }
}

// Puts all rules into the draft.
fn put_rules(alloc: Global, entries: &[Entry<'_>], draft: &mut Draft) -> Result<(), BookFault>
    ensures { (m : Content) → Holds draft.old m → LeavesRules (members_of entries.now) m draft.new result }
{
    let mut room = Room::new(alloc);
    for entry in entries {
        put_rule(alloc, &mut room, entry, draft)?;
    }
    Ok(())
}

/// Puts a rule.
pub(crate) fn put_rule(
    alloc: Global,
    room: &mut Room,
    entry: &Entry<'_>,
    draft: &mut Draft,
) -> Result<(), BookFault>
    ensures { (m : Content) → Holds draft.old m → LeavesRule entry.now.key.now (data_of entry.now.held) m draft.new result }
{
    match entry.held {
        Held::Text(text) => read_formula(alloc, room, entry.key, text, draft),
        Held::Number(_) => Err(no_text(alloc, entry.key, draft)),
    }
}
