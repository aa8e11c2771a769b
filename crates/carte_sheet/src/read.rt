ghost use Rattle.std.specs.Prelude.{◌≡◌};
ghost use Rattle.carte_sheet.specs.Reading.{IsRead, without_mark};

use crate::rows::read_records;
use carte_book::{Book, BookFault, Which};
use carte_value::Seeded;
use std::alloc::Global;

const MOST_BYTES: usize = 16_777_216;

/// Reads a sheet: a CSV text of at most 16,777,216 bytes, with at most 262,144 fields that aren't empty, in the first
/// 9,999 records and the first 702 fields of each. A byte order mark in front is passed over.
///
/// The field number c of record number r, counted from 1, stands in the cell of column c and row r. One that begins
/// with `=` is a rule; digits, with a sign in front or without one, are a number where it fits i64; every other field
/// is a text, and an empty field nothing.
///
/// The fault is the first of these: `Limit` of bytes; for each field that isn't empty, in order, `Limit` of rows,
/// `Limit` of columns, `NotUtf8`, `BadValue` of a text of more than 65,536 bytes or `Formula`; `Limit` of keys.
/// The book's map is made with `hasher`.
pub fn read_sheet(alloc: Global, bytes: &[u8], hasher: Seeded) -> Result<Book, BookFault>
    ensures { IsRead bytes.now result }
{
    if bytes.len() > MOST_BYTES {
        return Err(BookFault::Limit(Which::Bytes, 16_777_216));
    }
    read_records(alloc, without_mark(bytes), hasher)
}

/// The bytes without a byte order mark in front.
fn without_mark(bytes: &[u8]) -> &[u8]
    ensures { result.now ≡ without_mark bytes.now }
{
    if bytes.starts_with(b"\xEF\xBB\xBF") {
        bytes.split_at(3).1
    } else {
        bytes
    }
}
