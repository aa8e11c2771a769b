ghost use Rattle.std.specs.Prelude.{◌≡◌, ◌≤◌, ◌<◌, ◌+◌, [], length};
ghost use Rattle.csv.specs.Reading.{error_kind};
ghost use Rattle.carte_book.specs.declared.fault.BookFault.TheVariants.{NoMemory};
ghost use Rattle.std.specs.List.{slice_index_or};
ghost use Rattle.csv.specs.Records.{fields_of};
ghost use Rattle.carte_sheet.specs.Drafts.{Holds};
ghost use Rattle.carte_sheet.specs.Reading.{Content, InRows, records_of};
ghost use Rattle.carte_sheet.specs.Steps.{Answers, LeavesRow, LeavesRows, LeavesField, EndsRecords};
ghost use Rattle.std.specs.FinMap.{empty};
ghost use Rattle.carte_sheet.specs.Places.{IsAbove, IsBefore};

use crate::cell::read_field;
use crate::draft::Draft;
use carte_book::{Book, BookFault};
use carte_formula::Room;
use carte_value::Seeded;
use csv::{ByteRecord, Error, ErrorKind, ReaderBuilder};
use std::alloc::Global;

/// The book of the records of a text.
pub(crate) fn read_records(alloc: Global, text: &[u8], hasher: Seeded) -> Result<Book, BookFault>
    ensures { Answers (InRows (records_of text.now)) result }
{
    match Draft::new(alloc, count_fields(text), hasher) {
        Ok(draft) => read_into(alloc, text, draft),
        Err(fault) => Err(fault),
    }
}

// About as many fields as a text has: so many are the bytes that end one, where they aren't within quotes. No answer
// depends on it but how much room there is at first.
fn count_fields(text: &[u8]) -> usize {
    text.iter()
        .filter(|byte| **byte == b',' || **byte == b'\n')
        .count()
}

fn read_into(alloc: Global, text: &[u8], draft: Draft) -> Result<Book, BookFault>
    requires { Holds draft empty }
    ensures { Answers (InRows (records_of text.now)) result }
{
    let mut room = Room::new(alloc);
    let mut draft = draft;
    match read_rows(alloc, &mut room, text, &mut draft) {
        Ok(()) => draft.finish(),
        Err(fault) => Err(fault),
    }
}

// Puts what all records hold into a draft without cells.
fn read_rows(
    alloc: Global,
    room: &mut Room,
    text: &[u8],
    draft: &mut Draft,
) -> Result<(), BookFault>
    requires { Holds draft.old empty }
    ensures { LeavesRows (records_of text.now) draft.new result }
{
    let reader = ReaderBuilder::new()
        .has_headers(false)
        .flexible(true)
        .from_reader(alloc, text);
    let mut row: usize = 1;
    for found in reader.into_byte_records() {
        match found {
            Ok(fields) => {
                if let Err(fault) = read_row(alloc, room, row, &fields, draft) {
                    return Err(fault);
                }
            }
            Err(error) => return Err(no_record(error)),
        }
        // There is no memory for as many records as a `usize` can't count.
        let Some(next) = row.checked_add(1) else {
            return Err(BookFault::NoMemory);
        };
        row = next;
    }
    Ok(())
}

// A text in memory has no device that fails, and records may have any length.
fn no_record(error: Error) -> BookFault
    requires { EndsRecords (error_kind error) }
    ensures { result ≡ NoMemory }
{
    match error.into_kind() {
        ErrorKind::UnequalLengths { .. } | ErrorKind::Utf8 { .. } => unreachable!(),
        _ => BookFault::NoMemory,
    }
}

fn read_row(
    alloc: Global,
    room: &mut Room,
    row: usize,
    fields: &ByteRecord,
    draft: &mut Draft,
) -> Result<(), BookFault>
    requires { 1 ≤ row }
    ensures { (m : Content) → Holds draft.old m → IsAbove m row → LeavesRow row (fields_of fields.now) m draft.new result }
{
    for at in 0..fields.len() {
        if let Err(fault) = read_at(alloc, room, row, at, fields, draft) {
            return Err(fault);
        }
    }
    Ok(())
}

fn read_at(
    alloc: Global,
    room: &mut Room,
    row: usize,
    at: usize,
    fields: &ByteRecord,
    draft: &mut Draft,
) -> Result<(), BookFault>
    requires row { 1 ≤ row }
    requires field { at < length (fields_of fields.now) }
    ensures { (m : Content) → Holds draft.old m → IsBefore m row (at + 1) → LeavesField row (at + 1) (slice_index_or (fields_of fields.now) at []) m draft.new result }
{
    match fields.get(at) {
        Some(field) => read_field(alloc, room, row, at + 1, field, draft),
        None => Ok(()),
    }
}
