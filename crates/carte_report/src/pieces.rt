// Texts put together of pieces.
ghost use Rattle.std.specs.Prelude.{◌≡◌, ◌++◌, IfOk, string_bytes};
ghost use Rattle.std.specs.Fmt.{decimal};
ghost use Rattle.carte_value.specs.Printed.{quoted};

use carte_value::{NoMemory, quoted};
use std::alloc::Global;

pub(crate) fn plain(alloc: Global, text: &str) -> Result<String, NoMemory>
    ensures { IfOk result (λ t. string_bytes t ≡ text.now) }
{
    let text = String::from_str(alloc, text)?;
    Ok(text)
}

pub(crate) fn after(alloc: Global, front: &str, text: &str) -> Result<String, NoMemory>
    ensures { IfOk result (λ t. string_bytes t ≡ front.now ++ text.now) }
{
    let mut out = String::from_str(alloc, front)?;
    out.push_str(text)?;
    Ok(out)
}

pub(crate) fn between(alloc: Global, front: &str, text: &str, end: &str) -> Result<String, NoMemory>
    ensures { IfOk result (λ t. string_bytes t ≡ front.now ++ (text.now ++ end.now)) }
{
    let mut out = String::from_str(alloc, front)?;
    out.push_str(text)?;
    out.push_str(end)?;
    Ok(out)
}

pub(crate) fn number_after(alloc: Global, front: &str, number: u64) -> Result<String, NoMemory>
    ensures { IfOk result (λ t. string_bytes t ≡ front.now ++ decimal number) }
{
    let number = number.to_string(alloc)?;
    after(alloc, front, number.as_str())
}

pub(crate) fn quoted_after(alloc: Global, front: &str, text: &str) -> Result<String, NoMemory>
    ensures { IfOk result (λ t. string_bytes t ≡ front.now ++ quoted text.now) }
{
    let text = quoted(alloc, text)?;
    after(alloc, front, text.as_str())
}
