ghost use Rattle.std.specs.Prelude.{◌≡◌, ◌++◌, ◌<◌, ◌^◌, OnOk};
ghost use Rattle.carte_value.specs.Lists.{Begins};
ghost use Rattle.carte_codec.specs.Parts.{spelled_count, FitsCount};
ghost use Rattle.carte_codec.specs.Spellings.{IsRead};

use crate::Unread;
use carte_value::NoMemory;

/// Puts a count in 4 bytes, the greatest first, behind `out`.
pub(crate) fn write_count(count: usize, out: &mut Vec<u8>) -> Result<(), NoMemory>
    requires { count < 2 ^ 32 }
    ensures bytes { OnOk result (out.new.items ≡ out.old.items ++ spelled_count count) }
    ensures front { Begins out.old.items out.new.items }
{
    out.extend_from_slice((count as u32).to_be_bytes().as_slice())?;
    Ok(())
}

/// The count that the bytes begin with, and the bytes behind it.
pub(crate) fn read_count(bytes: &[u8]) -> Result<(usize, &[u8]), Unread>
    ensures { IsRead spelled_count FitsCount (λ x. (x.0, x.1.now)) bytes.now result }
{
    match bytes.split_first_chunk::<4>() {
        Some((count, rest)) => Ok((u32::from_be_bytes(*count) as usize, rest)),
        None => Err(Unread::NotThere),
    }
}
