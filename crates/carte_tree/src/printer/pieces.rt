ghost use Rattle.std.specs.Prelude.{◌≡◌, ◌++◌, [], ◌∷◌, OnOk};
ghost use Rattle.std.specs.Fmt.{signed_decimal};
ghost use Rattle.carte_value.specs.Lists.{Begins};
ghost use Rattle.carte_tree.specs.Printed.{op_bytes, doubled, text_bytes};

use crate::Op;
use carte_value::NoMemory;
use itoa::Buffer;

pub fn put(out: &mut Vec<u8>, bytes: &[u8]) -> Result<(), NoMemory>
    ensures front { Begins out.old.items out.new.items }
    ensures bytes { OnOk result (out.new.items ≡ out.old.items ++ bytes.now) }
{
    out.extend_from_slice(bytes)?;
    Ok(())
}

pub fn put_byte(out: &mut Vec<u8>, byte: u8) -> Result<(), NoMemory>
    ensures front { Begins out.old.items out.new.items }
    ensures bytes { OnOk result (out.new.items ≡ out.old.items ++ byte ∷ []) }
{
    out.push(byte)?;
    Ok(())
}

pub fn put_number(out: &mut Vec<u8>, number: i64) -> Result<(), NoMemory>
    ensures front { Begins out.old.items out.new.items }
    ensures bytes { OnOk result (out.new.items ≡ out.old.items ++ signed_decimal number) }
{
    put(out, Buffer::new().format(number).as_bytes())
}

/// A text in quotes, with each quote in it doubled.
pub fn put_text(out: &mut Vec<u8>, text: &str) -> Result<(), NoMemory>
    ensures front { Begins out.old.items out.new.items }
    ensures bytes { OnOk result (out.new.items ≡ out.old.items ++ text_bytes text.now) }
{
    put_byte(out, b'"')?;
    put_doubled(out, text.as_bytes())?;
    put_byte(out, b'"')
}

fn put_doubled(out: &mut Vec<u8>, text: &[u8]) -> Result<(), NoMemory>
    ensures front { Begins out.old.items out.new.items }
    ensures bytes { OnOk result (out.new.items ≡ out.old.items ++ doubled text.now) }
{
    for byte in text {
        if *byte == b'"' {
            out.push(b'"')?;
        }
        out.push(*byte)?;
    }
    Ok(())
}

impl Op {
    /// The sign as it is printed: a division behind a blank, since in a rule file `a/b` is one name.
    pub fn text(self) -> &'static str
        ensures { result.now ≡ op_bytes self }
    {
        match self {
            Op::Eq => "=",
            Op::Ne => "<>",
            Op::Lt => "<",
            Op::Le => "<=",
            Op::Gt => ">",
            Op::Ge => ">=",
            Op::Join => "&",
            Op::Add => "+",
            Op::Sub => "-",
            Op::Mul => "*",
            Op::Div => " /",
        }
    }
}
