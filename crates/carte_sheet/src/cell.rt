ghost use Rattle.std.specs.Prelude.{◌≡◌, ◌≤◌, ◌==◌, None, IsTrue, IfOk, slice_index};
ghost use Rattle.std.specs.FinMap.{get};
ghost use Rattle.carte_name.specs.Names.{is_cell_name};
ghost use Rattle.carte_sheet.specs.Drafts.{Holds};
ghost use Rattle.carte_sheet.specs.Reading.{Content, cell_of, ValueOf, FormulaOf, ItemOf};
ghost use Rattle.carte_sheet.specs.Steps.{Gives, IsValueOf, LeavesItem, LeavesFilled, LeavesField};
ghost use Rattle.carte_sheet.specs.Places.{IsBefore};

use crate::draft::Draft;
use carte_book::{BookFault, Which};
use carte_formula::{Room, read_in};
use carte_tree::FormulaFault;
use carte_value::{Kind, Name, NoMemory, Text, TextFault, Value, read_number};
use std::alloc::Global;
use std::str;

const MOST_ROWS: usize = 9_999;

const MOST_COLUMNS: usize = 702;

/// Puts what a field holds into the draft, in which only cells in front of its place stand. An empty field holds
/// nothing.
pub(crate) fn read_field(
    alloc: Global,
    room: &mut Room,
    row: usize,
    column: usize,
    field: &[u8],
    draft: &mut Draft,
) -> Result<(), BookFault>
    requires row { 1 ≤ row }
    requires column { 1 ≤ column }
    ensures { (m : Content) → Holds draft.old m → IsBefore m row column → LeavesField row column field.now m draft.new result }
{
    if field.is_empty() {
        return Ok(());
    }
    match name_at(alloc, row, column) {
        Ok(name) => read_filled(alloc, room, name, field, draft),
        Err(fault) => Err(fault),
    }
}

/// The name of the cell at a place.
fn name_at(alloc: Global, row: usize, column: usize) -> Result<Name, BookFault>
    requires row { 1 ≤ row }
    requires column { 1 ≤ column }
    ensures gives { Gives (λ k. k) (cell_of row column) result }
    ensures cell { IfOk result (λ k. IsTrue (is_cell_name k)) }
{
    if row > MOST_ROWS {
        return Err(BookFault::Limit(Which::Rows, 9_999));
    }
    if column > MOST_COLUMNS {
        return Err(BookFault::Limit(Which::Columns, 702));
    }
    match Name::cell_at(alloc, column as u32, row as u32) {
        Ok(name) => Ok(name),
        Err(_) => Err(BookFault::NoMemory),
    }
}

fn read_filled(
    alloc: Global,
    room: &mut Room,
    name: Name,
    field: &[u8],
    draft: &mut Draft,
) -> Result<(), BookFault>
    requires { IsTrue (is_cell_name name) }
    ensures { (m : Content) → Holds draft.old m → get m name ≡ None → LeavesFilled name field.now m draft.new result }
{
    match str::from_utf8(field) {
        Ok(text) => read_text(alloc, room, name, text, draft),
        Err(_) => Err(BookFault::NotUtf8(name)),
    }
}

fn read_text(
    alloc: Global,
    room: &mut Room,
    name: Name,
    text: &str,
    draft: &mut Draft,
) -> Result<(), BookFault>
    requires { IsTrue (is_cell_name name) }
    ensures { (m : Content) → Holds draft.old m → get m name ≡ None → LeavesItem (ItemOf name text.now) name m draft.new result }
{
    if is_formula(text) {
        read_formula(alloc, room, name, text.split_at(1).1, draft)
    } else {
        read_input(alloc, name, text, draft)
    }
}

fn is_formula(text: &str) -> bool
    ensures { result ≡ (slice_index text.now 0 == 61) }
{
    match text.as_bytes().first() {
        Some(byte) => *byte == b'=',
        None => false,
    }
}

fn read_formula(
    alloc: Global,
    room: &mut Room,
    name: Name,
    text: &str,
    draft: &mut Draft,
) -> Result<(), BookFault>
    requires { IsTrue (is_cell_name name) }
    ensures { (m : Content) → Holds draft.old m → get m name ≡ None → LeavesItem (FormulaOf name text.now) name m draft.new result }
{
    match read_in(alloc, room, Kind::Sheet, text) {
        Ok(expr) => match draft.keys.add_rule(name, expr) {
            Ok(()) => Ok(()),
            Err(_) => Err(BookFault::NoMemory),
        },
        Err(FormulaFault::NoMemory) => Err(BookFault::NoMemory),
        Err(fault) => Err(BookFault::Formula(name, fault)),
    }
}

fn read_input(alloc: Global, name: Name, text: &str, draft: &mut Draft) -> Result<(), BookFault>
    requires { IsTrue (is_cell_name name) }
    ensures { (m : Content) → Holds draft.old m → get m name ≡ None → LeavesItem (ValueOf name text.now) name m draft.new result }
{
    match value_of(alloc, text) {
        Ok(Some(value)) => match draft.keys.add_input(name, value) {
            Ok(()) => Ok(()),
            Err(_) => Err(BookFault::NoMemory),
        },
        Ok(None) => Err(BookFault::BadValue(name)),
        Err(_) => Err(BookFault::NoMemory),
    }
}

/// The number or the text that stands in a field, or `None` where it is too long a text.
fn value_of(alloc: Global, text: &str) -> Result<Option<Value>, NoMemory>
    ensures { IsValueOf text.now result }
{
    if let Some(number) = read_number(text) {
        return Ok(Some(Value::Number(number)));
    }
    match Text::of(alloc, text) {
        Ok(text) => Ok(Some(Value::Text(text))),
        Err(TextFault::TooLong(_)) => Ok(None),
        Err(TextFault::NoMemory) => Err(NoMemory),
    }
}
