ghost use Rattle.std.specs.Prelude.{◌≡◌, ◌++◌, IfOk, OnOk, string_bytes, encode_utf8};
ghost use Rattle.std.specs.List.{flat_map};
ghost use Rattle.carte_value.specs.Printed.{escaped, quoted, printed, printed_bad};

use crate::{Bad, NoMemory, Value};
use std::alloc::Global;

/// A text as a text value is printed: in double quotes, with escapes.
pub fn quoted(alloc: Global, text: &str) -> Result<String, NoMemory>
    ensures { IfOk result (λ t. string_bytes t ≡ quoted text.now) }
{
    let mut out = String::from_str(alloc, "\"")?;
    for c in text.chars() {
        escape(&mut out, c)?;
    }
    out.push_str("\"")?;
    Ok(out)
}

fn escape(out: &mut String, c: char) -> Result<(), NoMemory>
    ensures { OnOk result (string_bytes out.new ≡ string_bytes out.old ++ flat_map escaped (encode_utf8 c)) }
{
    if c == '\\' {
        out.push_str("\\\\")?;
    } else if c == '"' {
        out.push_str("\\\"")?;
    } else if c == '\n' {
        out.push_str("\\n")?;
    } else if c == '\r' {
        out.push_str("\\r")?;
    } else if c == '\t' {
        out.push_str("\\t")?;
    } else {
        out.push(c)?;
    }
    Ok(())
}

impl Bad {
    /// As Excel writes it, and `#LEN!`.
    pub fn text(self) -> &'static str
        ensures { result.now ≡ printed_bad self }
    {
        match self {
            Bad::Div0 => "#DIV/0!",
            Bad::Value => "#VALUE!",
            Bad::Ref => "#REF!",
            Bad::Num => "#NUM!",
            Bad::Len => "#LEN!",
        }
    }
}

impl Value {
    /// The value as it is shown: `empty`, a decimal number, a text in double quotes with escapes, or a bad value's text.
    pub fn print(&self, alloc: Global) -> Result<String, NoMemory>
        ensures { IfOk result (λ t. string_bytes t ≡ printed self.now) }
    {
        match self {
            Value::Empty => Ok(String::from_str(alloc, "empty")?),
            Value::Number(number) => Ok(number.to_string(alloc)?),
            Value::Text(text) => quoted(alloc, text.text()),
            Value::Bad(bad) => Ok(String::from_str(alloc, bad.text())?),
        }
    }
}
