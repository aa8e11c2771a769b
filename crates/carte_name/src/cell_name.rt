ghost use Rattle.std.specs.Prelude.{◌≡◌, ◌++◌, IfOk, string_bytes};
ghost use Rattle.carte_name.specs.Places.{cell_at, IsPlace};

use crate::NoMemory;
use std::alloc::Global;

/// The name of the cell in this column and this row.
pub(crate) fn cell_name(alloc: Global, column: u32, row: u32) -> Result<String, NoMemory>
    requires { IsPlace column row }
    ensures { IfOk result (λ t. string_bytes t ≡ cell_at column row) }
{
    if column <= 26 {
        let letter = (64 + column) as u8 as char;
        return Ok(format!(in alloc; "{letter}{row}")?);
    }
    let first = (64 + (column - 1) / 26) as u8 as char;
    let second = (65 + (column - 1) % 26) as u8 as char;
    Ok(format!(in alloc; "{first}{second}{row}")?)
}
