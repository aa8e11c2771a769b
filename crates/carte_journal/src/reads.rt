// Single reads of a disk. Where it tells what it reads, a caller shows that the range lies in the file.
ghost use Rattle.std.specs.Prelude.{◌≡◌, ◌+◌, ◌<◌, ◌≤◌, length, take, drop, IfOk, Err, ℕ};
ghost use Rattle.carte_io.specs.Causes.{HasCause, HasCauseOf};
ghost use Rattle.carte_journal.specs.Frames.{header};
ghost use Rattle.std.specs.Str.{bytes_eq};

use crate::LoadFault;
use carte_io::{Disk, Failed};
use std::alloc::{AllocError, Global};

// The header, `CARTE01` and a line feed.
const HEADER: [u8; 8] = *b"CARTE01\n";

/// Whether a file of at least 8 bytes begins with the header.
pub(crate) fn has_header<D: Disk>(disk: &mut D) -> Result<bool, Failed>
    requires { D.tells → 8 ≤ length (D.story disk.old).now.reads }
    ensures begins { D.tells → IfOk result (λ b. b ≡ bytes_eq (take 8 (D.story disk.old).now.reads) header) }
    ensures same { D.tells → D.story disk.new ≡ D.story disk.old }
    ensures cause { HasCause (D.faults disk.old) (D.faults disk.new) result }
{
    let mut bytes = [0; 8];
    disk.read_at(0, &mut bytes)?;
    Ok(bytes.as_slice() == HEADER.as_slice())
}

/// So many bytes from an offset on.
pub(crate) fn read_bytes<D: Disk>(
    alloc: Global,
    disk: &mut D,
    at: u64,
    count: usize,
) -> Result<Vec<u8>, LoadFault>
    requires { D.tells → at + count ≤ length (D.story disk.old).now.reads }
    ensures bytes { D.tells → IfOk result (λ bytes. bytes.items ≡ take count (drop at (D.story disk.old).now.reads)) }
    ensures count { IfOk result (λ bytes. length bytes.items ≡ count) }
    ensures good { (offset : ℕ) → result ≡ Err (LoadFault.BadState offset) → ⊥ }
    ensures same { D.tells → D.story disk.new ≡ D.story disk.old }
    ensures cause { HasCauseOf LoadFault.DiskFault (D.faults disk.old) (D.faults disk.new) result }
{
    let mut bytes = zeros(alloc, count)?;
    disk.read_at(at, &mut bytes)?;
    Ok(bytes)
}

fn zeros(alloc: Global, count: usize) -> Result<Vec<u8>, AllocError>
    ensures { IfOk result (λ bytes. length bytes.items ≡ count) }
{
    let mut bytes = Vec::with_capacity(alloc, count)?;
    bytes.resize(count, 0)?;
    Ok(bytes)
}
