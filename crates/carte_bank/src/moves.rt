// The first move of a file.
ghost use Rattle.std.specs.Prelude.{◌≡◌, ◌+◌, ◌<◌, ◌≤◌, ◌^◌, length, slice_index, IfOk, IfSome};
ghost use Rattle.carte_io.specs.Causes.{HasCause};
ghost use Rattle.carte_bank.specs.Found.{SeenWithin, move_seen};
ghost use Rattle.carte_bank.specs.Moves.{frame_at, move_from, move_in};
ghost use Rattle.carte_bank.specs.declared.frames.FrameAt.TheVariants.{Whole};

use crate::reads::{read_byte, read_number};
use crate::{FrameAt, read_frame};
use carte_io::{Disk, Failed};

/// A move: the offset of its gate byte, and where it says that the roots stand.
#[derive(Clone, Copy, Debug)]
pub struct Move {
    pub gate: u64,
    pub place: u64,
}

// What stands at a gate byte, for one who looks for a move.
enum Seen {
    // no whole frame
    End,
    Met(Move),
    // a frame of another kind, and the gate byte behind it
    Past(u64),
}

/// The first move in the list of a file of `len` bytes. Of each frame the gate byte and the length are read, and of
/// a body of 9 bytes its kind.
pub fn find_move<D: Disk>(disk: &mut D, len: u64, limit: u64) -> Result<Option<Move>, Failed>
    requires limit { limit < 2 ^ 32 }
    requires long { 8 < len }
    requires len { D.tells → len ≡ length (D.story disk.old).now.reads }
    ensures found { D.tells → IfOk result (λ o. o ≡ move_in limit (D.story disk.old).now.reads) }
    ensures low { IfOk result (λ o. IfSome o (λ m. m.gate + 15 ≤ limit)) }
    ensures same { D.tells → D.story disk.new ≡ D.story disk.old }
    ensures cause { HasCause (D.faults disk.old) (D.faults disk.new) result }
{
    let mut gate = 8;
    'frames: loop {
        match look(disk, len, limit, gate)? {
            Seen::End => return Ok(None),
            Seen::Met(found) => return Ok(Some(found)),
            Seen::Past(end) => gate = end,
        }
    }
}

// What stands at a gate byte.
fn look<D: Disk>(disk: &mut D, len: u64, limit: u64, gate: u64) -> Result<Seen, Failed>
    requires limit { limit < 2 ^ 32 }
    requires small { gate < 2 ^ 32 }
    requires inside { gate < len }
    requires len { D.tells → len ≡ length (D.story disk.old).now.reads }
    ensures seen { D.tells → IfOk result (λ s. move_from limit gate (D.story disk.old).now.reads ≡ move_seen limit (D.story disk.old).now.reads s) }
    ensures within { IfOk result (λ s. SeenWithin len limit gate s) }
    ensures same { D.tells → D.story disk.new ≡ D.story disk.old }
    ensures cause { HasCause (D.faults disk.old) (D.faults disk.new) result }
{
    match read_frame(disk, len, limit, gate)? {
        FrameAt::Whole(size) => look_into(disk, len, limit, gate, size),
        _ => Ok(Seen::End),
    }
}

// Whether a whole frame is a move.
fn look_into<D: Disk>(
    disk: &mut D,
    len: u64,
    limit: u64,
    gate: u64,
    size: u32,
) -> Result<Seen, Failed>
    requires limit { limit < 2 ^ 32 }
    requires frame { D.tells → frame_at limit gate (D.story disk.old).now.reads ≡ Whole size }
    requires within { (gate + 6 + size ≤ len) × (gate + 6 + size ≤ limit) }
    requires len { D.tells → len ≡ length (D.story disk.old).now.reads }
    ensures seen { D.tells → IfOk result (λ s. move_from limit gate (D.story disk.old).now.reads ≡ move_seen limit (D.story disk.old).now.reads s) }
    ensures within { IfOk result (λ s. SeenWithin len limit gate s) }
    ensures same { D.tells → D.story disk.new ≡ D.story disk.old }
    ensures cause { HasCause (D.faults disk.old) (D.faults disk.new) result }
{
    if size != 9 || read_byte(disk, gate + 5)? != 2 {
        return Ok(Seen::Past(gate + 5 + size as u64));
    }
    let place = read_number(disk, gate + 6)?;
    Ok(Seen::Met(Move { gate, place }))
}
