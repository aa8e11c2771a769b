ghost use Rattle.std.specs.Prelude.{◌≡◌, ◌≤◌, ◌++◌, length, IfOk, OnOk, option_map};
ghost use Rattle.carte_value.specs.Lists.{Begins};
ghost use Rattle.carte_value.specs.Spelling.{spelling, digest_of, bad_code, IsDecoded, IsNumberAhead, IsTextAhead, IsBadAhead};

use crate::{Bad, Digest, NoMemory, TEXT_LIMIT, Text, Value};
use sha2::{Digest as Hasher, Sha256};
use std::alloc::Global;

impl Bad {
    fn code(self) -> u8
        ensures { result ≡ bad_code self }
    {
        match self {
            Bad::Div0 => 1,
            Bad::Value => 2,
            Bad::Ref => 3,
            Bad::Num => 4,
            Bad::Len => 5,
        }
    }
}

impl Value {
    /// The spelling: a byte for the kind, and then the number, the text behind its length, or the number of the bad value.
    pub fn encode(&self, alloc: Global) -> Result<Vec<u8>, NoMemory>
        ensures { IfOk result (λ bytes. bytes.items ≡ spelling self.now) }
    {
        let mut bytes = Vec::new(alloc);
        self.write(&mut bytes)?;
        Ok(bytes)
    }

    /// Puts the spelling behind the bytes. Where there is no memory, a part of it may stand there.
    pub fn write(&self, out: &mut Vec<u8>) -> Result<(), NoMemory>
        ensures bytes { OnOk result (out.new.items ≡ out.old.items ++ spelling self.now) }
        ensures front { Begins out.old.items out.new.items }
    {
        match self {
            Value::Empty => out.push(0)?,
            Value::Number(number) => write_number(out, *number)?,
            Value::Text(text) => write_text(out, text.text())?,
            Value::Bad(bad) => out.extend_from_slice([3, bad.code()].as_slice())?,
        }
        Ok(())
    }

    /// The value that the bytes begin with, and the length of its spelling.
    pub fn decode(alloc: Global, bytes: &[u8]) -> Result<Option<(Value, usize)>, NoMemory>
        ensures { IsDecoded bytes.now result }
    {
        let Some((kind, rest)) = bytes.split_first() else {
            return Ok(None);
        };
        match *kind {
            0 => Ok(Some((Value::Empty, 1))),
            1 => match number_ahead(rest) {
                Some(number) => Ok(Some((Value::Number(number), 9))),
                None => Ok(None),
            },
            2 => match text_ahead(rest) {
                Some(text) => match Text::of(alloc, text) {
                    Ok(text) => {
                        let length = text.text().len() + 5;
                        Ok(Some((Value::Text(text), length)))
                    }
                    Err(_) => Err(NoMemory),
                },
                None => Ok(None),
            },
            3 => match bad_ahead(rest) {
                Some(bad) => Ok(Some((Value::Bad(bad), 2))),
                None => Ok(None),
            },
            _ => Ok(None),
        }
    }

    /// SHA-256 (FIPS 180-4) of the spelling. It takes no memory.
    pub fn digest(&self) -> Digest
        ensures { result ≡ digest_of self.now }
    {
        match self {
            Value::Empty => Digest(Sha256::digest([0u8])),
            Value::Number(number) => digest_number(*number),
            Value::Text(text) => digest_text(text.text()),
            Value::Bad(bad) => Digest(Sha256::digest([3u8, bad.code()])),
        }
    }
}

fn write_number(out: &mut Vec<u8>, number: i64) -> Result<(), NoMemory>
    ensures bytes { OnOk result (out.new.items ≡ out.old.items ++ spelling (Value.Number number)) }
    ensures front { Begins out.old.items out.new.items }
{
    out.push(1)?;
    out.extend_from_slice(number.to_be_bytes().as_slice())?;
    Ok(())
}

fn digest_number(number: i64) -> Digest
    ensures { result ≡ digest_of (Value.Number number) }
{
    let [a, b, c, d, e, f, g, h] = number.to_be_bytes();
    Digest(Sha256::digest([1, a, b, c, d, e, f, g, h]))
}

fn write_text(out: &mut Vec<u8>, text: &str) -> Result<(), NoMemory>
    requires { length text.now ≤ 65536 }
    ensures bytes { OnOk result (out.new.items ≡ out.old.items ++ spelling (Value.Text text.now)) }
    ensures front { Begins out.old.items out.new.items }
{
    out.push(2)?;
    out.extend_from_slice((text.len() as u32).to_be_bytes().as_slice())?;
    out.extend_from_slice(text.as_bytes())?;
    Ok(())
}

fn digest_text(text: &str) -> Digest
    requires { length text.now ≤ 65536 }
    ensures { result ≡ digest_of (Value.Text text.now) }
{
    let [a, b, c, d] = (text.len() as u32).to_be_bytes();
    let mut hasher = Sha256::new();
    hasher.update([2, a, b, c, d]);
    hasher.update(text.as_bytes());
    Digest(hasher.finalize())
}

fn number_ahead(bytes: &[u8]) -> Option<i64>
    ensures { IsNumberAhead bytes.now result }
{
    match bytes.first_chunk::<8>() {
        Some(number) => Some(i64::from_be_bytes(*number)),
        None => None,
    }
}

fn text_ahead(bytes: &[u8]) -> Option<&str>
    ensures { IsTextAhead bytes.now (option_map (λ t. t.now) result) }
{
    let Some((length, rest)) = bytes.split_first_chunk::<4>() else {
        return None;
    };
    let length = u32::from_be_bytes(*length) as usize;
    if length > TEXT_LIMIT || length > rest.len() {
        return None;
    }
    match str::from_utf8(rest.split_at(length).0) {
        Ok(text) => Some(text),
        Err(_) => None,
    }
}

fn bad_ahead(bytes: &[u8]) -> Option<Bad>
    ensures { IsBadAhead bytes.now result }
{
    match bytes {
        [1, ..] => Some(Bad::Div0),
        [2, ..] => Some(Bad::Value),
        [3, ..] => Some(Bad::Ref),
        [4, ..] => Some(Bad::Num),
        [5, ..] => Some(Bad::Len),
        _ => None,
    }
}
