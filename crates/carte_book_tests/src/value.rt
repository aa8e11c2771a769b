//! How values are spelled and printed, and what reads as one; names and areas.

mod names;
mod rows;

use crate::rows::{Told, rows_hold};
use crate::texts::hex;
use crate::value::rows::VALUES;
use carte_value::{Bad, NoMemory, Value, quoted};
use std::alloc::Global;
use std::test::Fail;

fn bad_of(text: &str) -> Bad {
    match text {
        "#DIV/0!" => Bad::Div0,
        "#VALUE!" => Bad::Value,
        "#REF!" => Bad::Ref,
        "#NUM!" => Bad::Num,
        _ => Bad::Len,
    }
}

fn read_text(alloc: Global, text: &str) -> Result<String, NoMemory> {
    match Value::read(alloc, text)? {
        Some(value) => value.copy(alloc)?.print(alloc),
        None => Ok(String::from_str(alloc, "none")?),
    }
}

// The value that the bytes begin with, if its spelling has this length.
fn decoded(alloc: Global, bytes: &[u8], wanted: usize) -> Result<String, NoMemory> {
    match Value::decode(alloc, bytes)? {
        Some((value, length)) if length == wanted => value.print(alloc),
        _ => Ok(String::from_str(alloc, "none")?),
    }
}

// Its printed form once it is read again from its spelling with more behind it, its spelling and its digest.
fn spelled(alloc: Global, value: &Value) -> Result<String, NoMemory> {
    let mut bytes = value.encode(alloc)?;
    let length = bytes.len();
    let spelling = hex(alloc, bytes.as_slice())?;
    value.write(&mut bytes)?;
    let again = decoded(alloc, bytes.as_slice(), length)?;
    let digest = hex(alloc, value.digest().0.as_slice())?;
    Ok(format!(in alloc; "{again} {spelling} {digest}")?)
}

#[derive(Drop)]
struct Spelling;

impl Told for Spelling {
    fn told(&self, alloc: Global, asked: &str) -> Result<String, Fail> {
        let (word, text) = asked.split_once(' ').unwrap_or((asked, ""));
        Ok(match word {
            "read" => read_text(alloc, text)?,
            "quote" => quoted(alloc, text)?,
            "bad" => spelled(alloc, &Value::Bad(bad_of(text)))?,
            _ => spelled(alloc, &Value::read(alloc, text)?.ok_or("not read")?)?,
        })
    }
}

#[test]
fn values(rt: HostRuntime) -> Result<(), Fail> {
    assert_eq!(rt; rows_hold(rt.alloc(), &Spelling, VALUES)?, 33);
    Ok(())
}
