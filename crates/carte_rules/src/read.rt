ghost use Rattle.std.specs.Prelude.{◌≤◌, length};
ghost use Rattle.toml.specs.View.{table_view};
ghost use Rattle.carte_rules.specs.Found.{tables_view};
ghost use Rattle.carte_rules.specs.Reading.{Then, InTables, IsRead};
ghost use Rattle.carte_rules.specs.Steps.{Answers};
ghost use Rattle.carte_rules.specs.Tables.{tables_into, no_tables};

use crate::direct::book_of_lines;
use crate::draft::Draft;
use crate::entries::put_tables;
use crate::found::{Found, find_tables};
use crate::inputs::read_inputs;
use crate::plain::read_plain;
use crate::rules::read_formulas;
use crate::signs::is_overgrown;
use carte_book::{Book, BookFault, Which};
use carte_value::Seeded;
use std::alloc::Global;
use toml::Table;

const MOST_BYTES: usize = 16_777_216;

/// Reads a rule file: a TOML document of at most 16,777,216 bytes, whose top keys are at most the tables `inputs`,
/// of names with integers and texts, and `rules`, of names with formulas, with at most 262,144 keys in all.
///
/// The fault is the first of these: `Limit` of bytes; `NotToml`; `BadTable` of the first other top key in byte order,
/// or that is no table; for each input in byte order `BadName`, then `BadValue` of what is neither an integer nor a
/// text of at most 65,536 bytes; for each rule in byte order `BadName`, `Twice` where it is an input, `BadValue` of
/// what is no text, `Formula`; `Limit` of keys. Memory is wanted only where there aren't too many bytes; and a document
/// with more structure than any book has, 1,048,576 of the signs `[{,.=` outside of texts and comments, is refused by
/// `NoMemory` before its tree is made.
/// The book's map is made with `hasher`.
pub fn read_rules(alloc: Global, bytes: &[u8], hasher: Seeded) -> Result<Book, BookFault>
    ensures { IsRead bytes.now result }
{
    if bytes.len() > MOST_BYTES {
        return Err(BookFault::Limit(Which::Bytes, MOST_BYTES as u64));
    }
    match std::str::from_utf8(bytes) {
        Ok(text) => read_text(alloc, text, hasher),
        Err(_) => read_whole(alloc, bytes, hasher),
    }
}

// The lines as they stand, which are a book or not in any order.
fn read_text(alloc: Global, text: &str, hasher: Seeded) -> Result<Book, BookFault>
    requires { length text.now ≤ 16777216 }
    ensures { IsRead text.now result }
{
    match book_of_lines(alloc, text, hasher) {
        Some(book) => Ok(book),
        None => read_in_order(alloc, text, hasher),
    }
}

// The lines by their keys, since the first fault is that in byte order. Where a key comes twice, the document tells it.
fn read_in_order(alloc: Global, text: &str, hasher: Seeded) -> Result<Book, BookFault>
    requires { length text.now ≤ 16777216 }
    ensures { IsRead text.now result }
{
    match read_plain(alloc, text) {
        Some(tables) => put_tables(alloc, &tables, hasher),
        None => read_whole(alloc, text.as_bytes(), hasher),
    }
}

// The way of every document.
fn read_whole(alloc: Global, bytes: &[u8], hasher: Seeded) -> Result<Book, BookFault>
    requires { length bytes.now ≤ 16777216 }
    ensures { IsRead bytes.now result }
{
    if is_overgrown(bytes) {
        return Err(BookFault::NoMemory);
    }
    match toml::table_from_slice(alloc, bytes) {
        Ok(document) => read_document(alloc, document, hasher),
        Err(error) => {
            if error.is_memory() {
                Err(BookFault::NoMemory)
            } else {
                Err(BookFault::NotToml)
            }
        }
    }
}

fn read_document(alloc: Global, document: Table, hasher: Seeded) -> Result<Book, BookFault>
    ensures { Answers (Then (tables_into (table_view document) no_tables) InTables) result }
{
    read_tables(alloc, find_tables(alloc, document)?, hasher)
}

fn read_tables(alloc: Global, found: Found, hasher: Seeded) -> Result<Book, BookFault>
    ensures { Answers (InTables (tables_view found)) result }
{
    let Found { inputs, rules } = found;
    let keys = inputs.len().saturating_add(rules.len());
    let mut draft = Draft::new(alloc, keys, hasher)?;
    read_inputs(alloc, inputs, &mut draft)?;
    read_formulas(alloc, rules, &mut draft)?;
    draft.finish()
}
