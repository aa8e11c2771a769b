ghost use Rattle.std.specs.Prelude.{option_map, MatchBool};
ghost use Rattle.carte_value.specs.Reading.{IsRead, IsNumberRead, IsBetweenQuotes, IsByteAhead, IsUnescaped, IsTextRead, IsPlain};

use crate::{NoMemory, Text, Value};
use std::alloc::Global;

impl Value {
    /// The value that a text shows: `empty`, a number with or without a sign, or a text in double quotes as it is printed. Bad values are not read.
    pub fn read(alloc: Global, text: &str) -> Result<Option<Value>, NoMemory>
        ensures { IsRead text.now result }
    {
        if text == "empty" {
            return Ok(Some(Value::Empty));
        }
        if let Some(number) = read_number(text) {
            return Ok(Some(Value::Number(number)));
        }
        match read_text(alloc, text)? {
            Some(text) => Ok(Some(Value::Text(text))),
            None => Ok(None),
        }
    }
}

/// The number that a text shows: one or more digits with or without a sign, and in i64.
pub fn read_number(text: &str) -> Option<i64>
    ensures { IsNumberRead text.now result }
{
    match text.parse::<i64>() {
        Ok(number) => Some(number),
        Err(_) => None,
    }
}

fn read_text(alloc: Global, text: &str) -> Result<Option<Text>, NoMemory>
    ensures { IsTextRead text.now result }
{
    let Some(body) = between_quotes(text.as_bytes()) else {
        return Ok(None);
    };
    let Some(bytes) = unescape(alloc, body)? else {
        return Ok(None);
    };
    match String::from_utf8(bytes) {
        Ok(text) => Text::made(text),
        Err(_) => Ok(None),
    }
}

fn between_quotes(text: &[u8]) -> Option<&[u8]>
    ensures { IsBetweenQuotes text.now (option_map (λ body. body.now) result) }
{
    match text {
        [b'"', body @ .., b'"'] => Some(body),
        _ => None,
    }
}

fn unescape(alloc: Global, body: &[u8]) -> Result<Option<Vec<u8>>, NoMemory>
    ensures { IsUnescaped body.now result }
{
    let mut bytes = Vec::new(alloc);
    let mut rest = body;
    while !rest.is_empty() {
        let Some((byte, length)) = byte_ahead(rest) else {
            return Ok(None);
        };
        bytes.push(byte)?;
        rest = rest.split_at(length).1;
    }
    Ok(Some(bytes))
}

/// The byte whose escaped form stands first, and the length of that form.
fn byte_ahead(bytes: &[u8]) -> Option<(u8, usize)>
    ensures { IsByteAhead bytes.now result }
{
    match bytes {
        [byte, ..] if is_plain(*byte) => Some((*byte, 1)),
        [b'\\', b'\\', ..] => Some((b'\\', 2)),
        [b'\\', b'"', ..] => Some((b'"', 2)),
        [b'\\', b'n', ..] => Some((b'\n', 2)),
        [b'\\', b'r', ..] => Some((b'\r', 2)),
        [b'\\', b't', ..] => Some((b'\t', 2)),
        _ => None,
    }
}

/// Whether a byte stands for itself between quotes.
fn is_plain(byte: u8) -> bool
    ensures { MatchBool result (IsPlain byte) (¬ (IsPlain byte)) }
{
    byte != b'\\' && byte != b'"' && byte != b'\n' && byte != b'\r' && byte != b'\t'
}
