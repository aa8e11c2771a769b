// Single reads of a disk. Where it tells what it reads, a caller shows that the range lies in the file.
ghost use Rattle.std.specs.Prelude.{◌≡◌, ◌+◌, ◌<◌, ◌≤◌, length, drop, slice_index, IfOk};
ghost use Rattle.carte_io.specs.Causes.{HasCause};
ghost use Rattle.carte_bank.specs.Moves.{stated, stated_at};

use carte_io::{Disk, Failed};

/// The byte at an offset.
pub fn read_byte<D: Disk>(disk: &mut D, at: u64) -> Result<u8, Failed>
    requires { D.tells → at < length (D.story disk.old).now.reads }
    ensures byte { D.tells → IfOk result (λ byte. byte ≡ slice_index (D.story disk.old).now.reads at) }
    ensures same { D.tells → D.story disk.new ≡ D.story disk.old }
    ensures cause { HasCause (D.faults disk.old) (D.faults disk.new) result }
{
    let mut bytes = [0; 1];
    disk.read_at(at, &mut bytes)?;
    Ok(bytes[0])
}

/// The length that 4 bytes at an offset state.
#[tactic(auto, unfolding(crate::specs::Moves::stated))]
pub(crate) fn read_size<D: Disk>(disk: &mut D, at: u64) -> Result<u32, Failed>
    requires { D.tells → at + 4 ≤ length (D.story disk.old).now.reads }
    ensures size { D.tells → IfOk result (λ size. size ≡ stated (drop at (D.story disk.old).now.reads)) }
    ensures same { D.tells → D.story disk.new ≡ D.story disk.old }
    ensures cause { HasCause (D.faults disk.old) (D.faults disk.new) result }
{
    let mut bytes = [0; 4];
    disk.read_at(at, &mut bytes)?;
    Ok(u32::from_be_bytes(bytes))
}

/// The number that 8 bytes at an offset state.
#[tactic(auto, unfolding(crate::specs::Moves::stated_at))]
pub fn read_number<D: Disk>(disk: &mut D, at: u64) -> Result<u64, Failed>
    requires { D.tells → at + 8 ≤ length (D.story disk.old).now.reads }
    ensures number { D.tells → IfOk result (λ number. number ≡ stated_at at (D.story disk.old).now.reads) }
    ensures same { D.tells → D.story disk.new ≡ D.story disk.old }
    ensures cause { HasCause (D.faults disk.old) (D.faults disk.new) result }
{
    let mut bytes = [0; 8];
    disk.read_at(at, &mut bytes)?;
    Ok(u64::from_be_bytes(bytes))
}
