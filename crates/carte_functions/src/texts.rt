//! The functions on texts.

ghost use Rattle.std.specs.Prelude.{◌≡◌, ◌≤◌, ◌++◌, ℕ, pos, length, IfOk, OnOk, string_bytes};
ghost use Rattle.std.specs.Cow.{cow_str_bytes};
ghost use Rattle.std.specs.Fmt.{signed_decimal};
ghost use Rattle.std.specs.List.{flat_map};
ghost use Rattle.std.specs.Str.{str_to_ascii_uppercase};
ghost use Rattle.carte_tree.specs.Coercions.{text_of, text_value, one, two};
ghost use Rattle.carte_tree.specs.Texts.{lines, line_of};

use crate::coercions::as_number;
use crate::lines::{count_lines, line_at};
use carte_value::{Bad, NoMemory, TEXT_LIMIT, Text, Value};
use std::alloc::Global;
use std::borrow::CowStr;
use std::fmt::Write;

/// The decimal digits of a number, with a sign before those of a negative one.
fn decimal(alloc: Global, number: i64) -> Result<String, NoMemory>
    ensures digits { IfOk result (λ t. string_bytes t ≡ signed_decimal number) }
    ensures bound { IfOk result (λ t. length (string_bytes t) ≤ 65536) }
{
    Ok(format!(in alloc; "{number}")?)
}

/// A value as a text: a number by its decimal digits, and Empty without bytes.
pub(crate) fn text_of<'a>(alloc: Global, value: &'a Value) -> Result<CowStr<'a>, NoMemory>
    ensures text { IfOk result (λ t. cow_str_bytes t ≡ text_of value.now) }
    ensures bound { IfOk result (λ t. length (cow_str_bytes t) ≤ 65536) }
{
    match value {
        Value::Empty => Ok(CowStr::Borrowed("")),
        Value::Number(number) => Ok(CowStr::Owned(decimal(alloc, *number)?)),
        Value::Text(text) => Ok(CowStr::Borrowed(text.text())),
        Value::Bad(_) => Ok(CowStr::Borrowed("")),
    }
}

/// Puts the text of a value behind a text.
pub(crate) fn append(text: &mut String, value: &Value) -> Result<(), NoMemory>
    ensures { OnOk result (string_bytes text.new ≡ string_bytes text.old ++ text_of value.now) }
{
    match value {
        Value::Number(number) => write!(text, "{number}")?,
        Value::Text(more) => text.push_str(more.text())?,
        Value::Empty | Value::Bad(_) => {}
    }
    Ok(())
}

/// A text as a value, or `#LEN!` where it is too long for one.
pub(crate) fn made(text: String) -> Result<Value, NoMemory>
    ensures { IfOk result (λ v. v ≡ text_value (string_bytes text)) }
{
    match Text::made(text)? {
        Some(text) => Ok(Value::Text(text)),
        None => Ok(Value::Bad(Bad::Len)),
    }
}

/// `&` and CONCAT: the texts of the values, one behind the other.
pub(crate) fn join(alloc: Global, values: &[Value]) -> Result<Value, NoMemory>
    ensures { IfOk result (λ v. v ≡ text_value (flat_map text_of values.now)) }
{
    let mut text = String::new(alloc);
    for value in values {
        append(&mut text, value)?;
        if text.len() > TEXT_LIMIT {
            return Ok(Value::Bad(Bad::Len));
        }
    }
    made(text)
}

/// LEN: the number of bytes of a text.
pub(crate) fn len(alloc: Global, values: &[Value]) -> Result<Value, NoMemory>
    ensures { IfOk result (λ v. v ≡ one (λ w. Value.Number (pos (length (text_of w)))) values.now) }
{
    let [value] = values else {
        return Ok(Value::Empty);
    };
    let text = text_of(alloc, value)?;
    Ok(Value::Number(text.as_str().len() as i64))
}

/// UPPER: a text with its ASCII letters raised.
pub(crate) fn upper(alloc: Global, values: &[Value]) -> Result<Value, NoMemory>
    ensures { IfOk result (λ v. v ≡ one (λ w. Value.Text (str_to_ascii_uppercase (text_of w))) values.now) }
{
    let [value] = values else {
        return Ok(Value::Empty);
    };
    let text = text_of(alloc, value)?;
    made(text.as_str().to_ascii_uppercase(alloc)?)
}

/// LINES: how many lines a text has.
pub(crate) fn lines(alloc: Global, values: &[Value]) -> Result<Value, NoMemory>
    ensures { IfOk result (λ v. v ≡ one (λ w. Value.Number (pos (length (lines (text_of w))))) values.now) }
{
    let [value] = values else {
        return Ok(Value::Empty);
    };
    let text = text_of(alloc, value)?;
    Ok(Value::Number(count_lines(text.as_str()) as i64))
}

/// LINE: the line of a text at a place that is counted from 1.
pub(crate) fn line(alloc: Global, values: &[Value]) -> Result<Value, NoMemory>
    ensures { IfOk result (λ v. v ≡ two line_of values.now) }
{
    let [value, place] = values else {
        return Ok(Value::Empty);
    };
    let Some(place) = as_number(place) else {
        return Ok(Value::Bad(Bad::Value));
    };
    if place < 1 {
        return Ok(Value::Bad(Bad::Value));
    }
    let text = text_of(alloc, value)?;
    match line_at(text.as_str(), (place - 1) as usize) {
        Some(line) => made(String::from_str(alloc, line)?),
        None => Ok(Value::Bad(Bad::Value)),
    }
}
