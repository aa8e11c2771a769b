// The frame at a gate byte, by that byte and its length alone.
ghost use Rattle.std.specs.Prelude.{◌≡◌, ◌+◌, ◌<◌, ◌≤◌, ◌^◌, length, IfOk};
ghost use Rattle.carte_io.specs.Causes.{HasCause};
ghost use Rattle.carte_bank.specs.Moves.{frame_at};
ghost use Rattle.carte_bank.specs.Found.{Fits};

use crate::reads::{read_byte, read_size};
use carte_io::{Disk, Failed};

/// What stands at a gate byte.
#[derive(Clone, Copy, Debug)]
pub enum FrameAt {
    /// The gate byte is closed.
    Closed,
    /// It is open, and the frame doesn't lie in the file and within the limit.
    Cut,
    /// It is open, and the frame lies there. Its body has so many bytes.
    Whole(u32),
}

/// What stands at a gate byte that lies in a file of `len` bytes.
pub fn read_frame<D: Disk>(disk: &mut D, len: u64, limit: u64, gate: u64) -> Result<FrameAt, Failed>
    requires small { gate < 2 ^ 32 }
    requires inside { gate < len }
    requires len { D.tells → len ≡ length (D.story disk.old).now.reads }
    ensures frame { D.tells → IfOk result (λ f. f ≡ frame_at limit gate (D.story disk.old).now.reads) }
    ensures fits { IfOk result (λ f. Fits len limit gate f) }
    ensures same { D.tells → D.story disk.new ≡ D.story disk.old }
    ensures cause { HasCause (D.faults disk.old) (D.faults disk.new) result }
{
    if read_byte(disk, gate)? != 1 {
        return Ok(FrameAt::Closed);
    }
    if len - gate < 5 {
        return Ok(FrameAt::Cut);
    }
    let size = read_size(disk, gate + 1)?;
    let end = gate + 6 + size as u64;
    if end > len || end > limit {
        return Ok(FrameAt::Cut);
    }
    Ok(FrameAt::Whole(size))
}
