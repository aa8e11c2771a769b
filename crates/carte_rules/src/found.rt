ghost use Rattle.std.specs.Prelude.{◌≡◌};
ghost use Rattle.toml.specs.View.{view, table_view};
ghost use Rattle.carte_book.specs.declared.fault.BookFault.TheVariants.{BadTable};
ghost use Rattle.carte_rules.specs.Found.{tables_view};
ghost use Rattle.carte_rules.specs.Steps.{Gives, IsCause};
ghost use Rattle.carte_rules.specs.Tables.{table_into, tables_into, no_tables};

use carte_book::{BookFault, KeyText};
use std::alloc::Global;
use std::collections::BTreeMap;
use toml::{Table, Value};

/// The two tables of a document; one that isn't there is empty.
#[derive(Drop)]
pub(crate) struct Found {
    pub(crate) inputs: Table,
    pub(crate) rules: Table,
}

/// The two tables, where the document has no other key.
pub(crate) fn find_tables(alloc: Global, document: Table) -> Result<Found, BookFault>
    ensures { Gives tables_view (tables_into (table_view document) no_tables) result }
{
    let mut found = Found {
        inputs: BTreeMap::new(alloc),
        rules: BTreeMap::new(alloc),
    };
    for (key, value) in document {
        put_table(alloc, &mut found, key.as_str(), value)?;
    }
    Ok(found)
}

fn put_table(alloc: Global, found: &mut Found, key: &str, value: Value) -> Result<(), BookFault>
    ensures { Gives (λ u. tables_view found.new) (table_into key.now (view value) (tables_view found.old)) result }
{
    match value {
        Value::Table(table) => {
            if key == "inputs" {
                found.inputs = table;
                Ok(())
            } else if key == "rules" {
                found.rules = table;
                Ok(())
            } else {
                Err(bad_table(alloc, key))
            }
        }
        _ => Err(bad_table(alloc, key)),
    }
}

fn bad_table(alloc: Global, key: &str) -> BookFault
    ensures { IsCause result → result ≡ BadTable key.now }
{
    match KeyText::of(alloc, key) {
        Ok(text) => BookFault::BadTable(text),
        Err(_) => BookFault::NoMemory,
    }
}
