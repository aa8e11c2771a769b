//! Texts of bytes, items and faults, as rows have them.

use carte_book::{Book, BookFault, Looked, Which};
use carte_formula::{FormulaFault, print};
use carte_value::{Name, NoMemory};
use std::alloc::Global;
use std::test::Fail;

/// Two digits for each byte.
pub(crate) fn hex(alloc: Global, bytes: &[u8]) -> Result<String, NoMemory> {
    let mut text = String::new(alloc);
    for byte in bytes {
        let pair = format!(in alloc; "{byte:02x}")?;
        text.push_str(pair.as_str())?;
    }
    Ok(text)
}

/// What stands at a name, of either kind.
pub(crate) fn item_text(alloc: Global, book: &Book, name: &Name) -> Result<String, Fail> {
    match book.lookup(name) {
        Looked::Input(value) => Ok(value.print(alloc)?),
        Looked::Rule(expr) => Ok(print(alloc, expr)?),
        Looked::None => Ok(String::from_str(alloc, "nothing")?),
    }
}

fn formula_fault(fault: &FormulaFault) -> (&'static str, u64) {
    match fault {
        FormulaFault::BadToken(at) => ("bad token", *at as u64),
        FormulaFault::BadSyntax(at) => ("bad syntax", *at as u64),
        FormulaFault::TooDeep(at) => ("too deep", *at as u64),
        FormulaFault::TooLong(size) => ("too long", *size as u64),
        FormulaFault::TooWide(at) => ("too many cells", *at as u64),
        FormulaFault::NoMemory => ("formula memory", 0),
    }
}

fn limit(which: Which) -> &'static str {
    match which {
        Which::Bytes => "bytes",
        Which::Keys => "keys",
        Which::Rows => "rows",
        Which::Columns => "columns",
    }
}

/// Which fault it is, and its number.
pub(crate) fn fault_word(fault: &BookFault) -> (&'static str, u64) {
    match fault {
        BookFault::Limit(which, most) => (limit(*which), *most),
        BookFault::NotToml => ("not TOML", 0),
        BookFault::BadTable(_) => ("bad table", 0),
        BookFault::BadName(_) => ("bad name", 0),
        BookFault::BadValue(_) => ("bad value", 0),
        BookFault::Formula(_, fault) => formula_fault(fault),
        BookFault::Twice(_) => ("twice", 0),
        BookFault::NotUtf8(_) => ("not UTF-8", 0),
        BookFault::NoMemory => ("memory", 0),
    }
}

/// Where it is, and nothing for a fault that has no place.
pub(crate) fn fault_key(fault: &BookFault) -> &str {
    match fault {
        BookFault::BadTable(key) | BookFault::BadName(key) => key.text(),
        BookFault::BadValue(name) | BookFault::Twice(name) | BookFault::NotUtf8(name) => {
            name.text()
        }
        BookFault::Formula(name, _) => name.text(),
        _ => "",
    }
}
