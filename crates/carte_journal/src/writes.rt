// Writes that are on the disk before the next one begins.
ghost use Rattle.std.specs.Prelude.{◌≡◌, ◌+◌, ◌<◌, ◌≤◌, ◌^◌, ◌++◌, ◌∷◌, [], true, false, length, cond, List, Option, ℕ, OnOk, OnErr};
ghost use Rattle.carte_bank.specs.Moves.{is_move};
ghost use Rattle.carte_bank.specs.declared.roots.Roots.{Roots};
ghost use Rattle.carte_io.specs.Causes.{HasCause};
ghost use Rattle.carte_journal.specs.Frames.{BodyAt, end_of, piece_of};
ghost use Rattle.carte_journal.specs.Journals.{IsAtRest, Standing};
ghost use Rattle.carte_journal.specs.Ready.{AddsBody, IsReadyAt, IsWrittenThrough, StaysReady, start_bytes};
ghost use Rattle.carte_io.specs.Disk.{IsSettled, Throughout, did_sync, wrote};

use crate::Frame;
use carte_io::{Disk, Failed};

// The header, `CARTE01` and a line feed, and a closed gate byte.
const START: [u8; 9] = *b"CARTE01\n\0";

/// Writes a piece, and then syncs.
pub(crate) fn write_through<D: Disk>(disk: &mut D, at: u64, piece: &[u8]) -> Result<(), Failed>
    ensures ok { D.tells → OnOk result (D.story disk.new ≡ did_sync (wrote at piece.now (D.story disk.old))) }
    ensures any_moment { D.tells → IsSettled (D.story disk.old).now → IsWrittenThrough at piece.now (D.story disk.old) (D.story disk.new) }
    ensures fewer { D.tells → OnErr result (((D.story disk.old).now.passed ≤ (D.story disk.new).now.passed) × ((D.story disk.new).now.passed ≤ (D.story disk.old).now.passed + 1)) }
    ensures cause { HasCause (D.faults disk.old) (D.faults disk.new) result }
{
    disk.write_at(at, piece)?;
    disk.sync()
}

// Writes the header and a closed gate byte.
fn write_start<D: Disk>(disk: &mut D) -> Result<(), Failed>
    ensures ok { D.tells → OnOk result (D.story disk.new ≡ did_sync (wrote 0 start_bytes (D.story disk.old))) }
    ensures any_moment { D.tells → IsSettled (D.story disk.old).now → IsWrittenThrough 0 start_bytes (D.story disk.old) (D.story disk.new) }
    ensures fewer { D.tells → OnErr result (((D.story disk.old).now.passed ≤ (D.story disk.new).now.passed) × ((D.story disk.new).now.passed ≤ (D.story disk.old).now.passed + 1)) }
    ensures cause { HasCause (D.faults disk.old) (D.faults disk.new) result }
{
    write_through(disk, 0, START.as_slice())
}

// Writes a frame behind its gate byte.
fn write_piece<D: Disk>(disk: &mut D, gate: u64, frame: &Frame) -> Result<(), Failed>
    requires { gate < 2 ^ 32 }
    ensures ok { D.tells → OnOk result (D.story disk.new ≡ did_sync (wrote (gate + 1) (piece_of frame.now) (D.story disk.old))) }
    ensures any_moment { D.tells → IsSettled (D.story disk.old).now
        → IsWrittenThrough (gate + 1) (piece_of frame.now) (D.story disk.old) (D.story disk.new) }
    ensures fewer { D.tells → OnErr result (((D.story disk.old).now.passed ≤ (D.story disk.new).now.passed) × ((D.story disk.new).now.passed ≤ (D.story disk.old).now.passed + 1)) }
    ensures cause { HasCause (D.faults disk.old) (D.faults disk.new) result }
    ensures short { length frame.now < 2 ^ 32 }
    ensures other { is_move frame.now ≡ false }
{
    write_through(disk, gate + 1, frame.piece())
}

/// Opens a gate byte.
pub(crate) fn open_gate<D: Disk>(disk: &mut D, gate: u64) -> Result<(), Failed>
    ensures ok { D.tells → OnOk result (D.story disk.new ≡ did_sync (wrote gate (1 ∷ []) (D.story disk.old))) }
    ensures any_moment { D.tells → IsSettled (D.story disk.old).now → IsWrittenThrough gate (1 ∷ []) (D.story disk.old) (D.story disk.new) }
    ensures fewer { D.tells → OnErr result (((D.story disk.old).now.passed ≤ (D.story disk.new).now.passed) × ((D.story disk.new).now.passed ≤ (D.story disk.old).now.passed + 1)) }
    ensures cause { HasCause (D.faults disk.old) (D.faults disk.new) result }
{
    write_through(disk, gate, [1].as_slice())
}

/// Closes a gate byte.
pub(crate) fn close_gate<D: Disk>(disk: &mut D, gate: u64) -> Result<(), Failed>
    ensures ok { D.tells → OnOk result (D.story disk.new ≡ did_sync (wrote gate (0 ∷ []) (D.story disk.old))) }
    ensures any_moment { D.tells → IsSettled (D.story disk.old).now → IsWrittenThrough gate (0 ∷ []) (D.story disk.old) (D.story disk.new) }
    ensures fewer { D.tells → OnErr result (((D.story disk.old).now.passed ≤ (D.story disk.new).now.passed) × ((D.story disk.new).now.passed ≤ (D.story disk.old).now.passed + 1)) }
    ensures cause { HasCause (D.faults disk.old) (D.faults disk.new) result }
{
    write_through(disk, gate, [0].as_slice())
}

/// Writes the header of a new file.
pub(crate) fn begin<D: Disk>(disk: &mut D, fresh: bool) -> Result<(), Failed>
    ensures ok { D.tells → (j : Standing) (bodies : List BodyAt) → IsAtRest j bodies (D.story disk.old) → j.fresh ≡ fresh
        → OnOk result (IsReadyAt j.limit j.bank j.gate bodies (D.story disk.new)) }
    ensures any_moment { D.tells → (j : Standing) (bodies : List BodyAt) → IsAtRest j bodies (D.story disk.old) → j.fresh ≡ fresh
        → Throughout (D.story disk.old) (D.story disk.new) (StaysReady j.limit j.gate bodies ((D.story disk.old).now.passed + cond fresh 2 0)) }
    ensures calls { D.tells → OnOk result ((D.story disk.new).now.passed ≡ (D.story disk.old).now.passed + cond fresh 2 0) }
    ensures fewer { D.tells → OnErr result (((D.story disk.old).now.passed ≤ (D.story disk.new).now.passed) × ((D.story disk.new).now.passed < (D.story disk.old).now.passed + 2)) }
    ensures needed { fresh ≡ false → OnErr result ⊥ }
    ensures cause { HasCause (D.faults disk.old) (D.faults disk.new) result }
{
    if fresh {
        return write_start(disk);
    }
    Ok(())
}

/// Puts a frame behind a closed gate byte, and then opens it.
pub(crate) fn put_frame<D: Disk>(disk: &mut D, gate: u64, frame: &Frame) -> Result<(), Failed>
    requires { gate < 2 ^ 32 }
    ensures ok { D.tells → (limit : ℕ) (bank : Option Roots) (bodies : List BodyAt) → IsReadyAt limit bank gate bodies (D.story disk.old)
        → end_of gate frame.now + 1 ≤ limit
        → OnOk result (IsReadyAt limit bank (end_of gate frame.now) (bodies ++ (gate, frame.now) ∷ []) (D.story disk.new)) }
    ensures any_moment { D.tells → (limit : ℕ) (bank : Option Roots) (bodies : List BodyAt) → IsReadyAt limit bank gate bodies (D.story disk.old)
        → end_of gate frame.now + 1 ≤ limit
        → Throughout (D.story disk.old) (D.story disk.new) (AddsBody limit gate bodies frame.now ((D.story disk.old).now.passed + 4)) }
    ensures calls { D.tells → OnOk result ((D.story disk.new).now.passed ≡ (D.story disk.old).now.passed + 4) }
    ensures fewer { D.tells → OnErr result (((D.story disk.old).now.passed ≤ (D.story disk.new).now.passed) × ((D.story disk.new).now.passed < (D.story disk.old).now.passed + 4)) }
    ensures cause { HasCause (D.faults disk.old) (D.faults disk.new) result }
{
    write_piece(disk, gate, frame)?;
    open_gate(disk, gate)
}

/// Adds a frame, behind the header of a new file.
pub(crate) fn append<D: Disk>(
    disk: &mut D,
    fresh: bool,
    gate: u64,
    frame: &Frame,
) -> Result<(), Failed>
    requires { gate < 2 ^ 32 }
    ensures ok { D.tells → (j : Standing) (bodies : List BodyAt) → IsAtRest j bodies (D.story disk.old) → j.fresh ≡ fresh → j.gate ≡ gate
        → end_of gate frame.now + 1 ≤ j.limit
        → OnOk result (IsReadyAt j.limit j.bank (end_of gate frame.now) (bodies ++ (gate, frame.now) ∷ []) (D.story disk.new)) }
    ensures any_moment { D.tells → (j : Standing) (bodies : List BodyAt) → IsAtRest j bodies (D.story disk.old) → j.fresh ≡ fresh → j.gate ≡ gate
        → end_of gate frame.now + 1 ≤ j.limit
        → Throughout (D.story disk.old) (D.story disk.new) (AddsBody j.limit gate bodies frame.now ((D.story disk.old).now.passed + cond fresh 6 4)) }
    ensures calls { D.tells → OnOk result ((D.story disk.new).now.passed ≡ (D.story disk.old).now.passed + cond fresh 6 4) }
    ensures fewer { D.tells → OnErr result (((D.story disk.old).now.passed ≤ (D.story disk.new).now.passed) × ((D.story disk.new).now.passed < (D.story disk.old).now.passed + cond fresh 6 4)) }
    ensures cause { HasCause (D.faults disk.old) (D.faults disk.new) result }
{
    begin(disk, fresh)?;
    put_frame(disk, gate, frame)
}
