//! Which book the bytes of a sheet are, or which fault they have.

mod rows;

use crate::sheet::rows::ROWS;
use crate::texts::{fault_key, fault_word, item_text};
use carte_book::{Book, BookFault, Looked};
use carte_sheet::read_sheet;
use carte_value::{Name, Seeded};
use std::alloc::Global;
use std::test::Fail;

// The fault, its number and its cell.
fn fault_line(alloc: Global, fault: &BookFault) -> Result<String, Fail> {
    let (word, number) = fault_word(fault);
    let cell = match fault_key(fault) {
        "" => "-",
        cell => cell,
    };
    Ok(format!(in alloc; "{word} {number} {cell}")?)
}

// What stands at a cell, behind its name.
fn item_line(alloc: Global, book: &Book, cell: &str) -> Result<String, Fail> {
    let name = Name::cell(alloc, cell)?;
    let mark = match book.lookup(&name) {
        Looked::Rule(_) => ":",
        _ => "=",
    };
    let item = item_text(alloc, book, &name)?;
    Ok(format!(in alloc; "{cell}{mark}{item}")?)
}

fn bytes_of(alloc: Global, text: &str) -> Result<Vec<u8>, Fail> {
    let mut bytes = Vec::new(alloc);
    for byte in text.bytes() {
        match byte {
            b'|' => bytes.push(b'\n')?,
            b'^' => bytes.push(b'\r')?,
            b'$' => bytes.push(255)?,
            b'%' => bytes.extend_from_slice(b"\xEF\xBB\xBF")?,
            other => bytes.push(other)?,
        }
    }
    Ok(bytes)
}

// Whether a book has this: the number of its keys, or a cell with its item.
fn has(alloc: Global, book: &Book, part: &str) -> Result<bool, Fail> {
    if let Ok(keys) = part.parse::<u64>() {
        return Ok(book.keys() == keys);
    }
    let wanted = bytes_of(alloc, part)?;
    let cell = part
        .split(|c| c == '=' || c == ':')
        .next()
        .ok_or("no cell")?;
    Ok(item_line(alloc, book, cell)?.as_bytes() == wanted.as_slice())
}

// Whether a book has each of these.
fn has_all(alloc: Global, book: &Book, parts: &str) -> Result<bool, Fail> {
    for part in parts.split(" ; ") {
        if !has(alloc, book, part)? {
            return Ok(false);
        }
    }
    Ok(true)
}

fn means(alloc: Global, sheet: &str, meaning: &str) -> Result<bool, Fail> {
    let bytes = bytes_of(alloc, sheet)?;
    match read_sheet(alloc, bytes.as_slice(), Seeded::of(7)) {
        Ok(book) => has_all(alloc, &book, meaning),
        Err(fault) => Ok(fault_line(alloc, &fault)?.as_str() == meaning),
    }
}

#[test]
fn sheets(rt: HostRuntime) -> Result<(), Fail> {
    for row in ROWS.split('\n') {
        let (sheet, meaning) = row.split_once(" -> ").ok_or("no arrow")?;
        let right = means(rt.alloc(), sheet, meaning)?;
        assert!(rt; right, "{row}");
    }
    Ok(())
}
