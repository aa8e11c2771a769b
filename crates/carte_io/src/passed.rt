// The writing calls of a disk in memory, and what they do to its bytes.
ghost use Rattle.std.specs.Prelude.{◌≡◌, ◌+◌, ◌<◌, ◌≤◌, ◌-◌, ◌^◌, ◌++◌, ◌∷◌, [], length, take, drop, replicate, vec_capacity, IsOk, IfOk, OnOk, OnErr};
ghost use Rattle.carte_io.specs.Disk.{put_at};

use crate::NoMemory;
use std::alloc::Global;
use std::marker::Model;

/// A piece that was written.
#[derive(Drop)]
pub(crate) struct Piece {
    bytes: Vec<u8>,
}

impl Model for Piece {
    ghost use Rattle.std.specs.Prelude.{List, ℕ};

    ghost Value = { List ℕ };

    ghost view = { λ p. p.bytes.items };
}

impl Piece {
    fn of(alloc: Global, bytes: &[u8]) -> Result<Piece, NoMemory>
        ensures { IfOk result (λ p. p ≡ bytes.now) }
    {
        Ok(Piece {
            bytes: bytes.to_vec(alloc)?,
        })
    }

    pub(crate) fn bytes(&self) -> &[u8]
        ensures { result.now ≡ self.now }
    {
        &self.bytes
    }
}

/// A writing call that passed.
#[derive(Drop)]
pub(crate) enum Passed {
    Wrote(u64, Piece),
    Synced,
}

/// Writes a piece over the bytes and notes it, or does neither.
pub(crate) fn write_and_note(
    alloc: Global,
    bytes: &mut Vec<u8>,
    passed: &mut Vec<Passed>,
    at: u64,
    piece: &[u8],
) -> Result<(), NoMemory>
    ensures ok { OnOk result ((bytes.new.items ≡ put_at bytes.old.items at piece.now)
        × (passed.new.items ≡ passed.old.items ++ Passed.Wrote at piece.now ∷ [])) }
    ensures err { OnErr result ((bytes.new.items ≡ bytes.old.items) × (passed.new.items ≡ passed.old.items)) }
{
    let Some(end) = (at as usize).checked_add(piece.len()) else {
        return Err(NoMemory);
    };
    let noted = Piece::of(alloc, piece)?;
    bytes.try_reserve(end.saturating_sub(bytes.len()))?;
    note(passed, Passed::Wrote(at, noted))?;
    put(bytes, at as usize, piece).unwrap();
    Ok(())
}

/// Notes a call that passed.
pub(crate) fn note(passed: &mut Vec<Passed>, call: Passed) -> Result<(), NoMemory>
    ensures ok { OnOk result (passed.new.items ≡ passed.old.items ++ call ∷ []) }
    ensures err { OnErr result (passed.new.items ≡ passed.old.items) }
{
    passed.push(call)?;
    Ok(())
}

/// Puts a piece over the bytes, with zeros in a gap. It needs memory only where there is no room.
pub(crate) fn put(bytes: &mut Vec<u8>, at: usize, piece: &[u8]) -> Result<(), NoMemory>
    ensures ok { OnOk result (bytes.new.items ≡ put_at bytes.old.items at piece.now) }
    ensures err { OnErr result (bytes.new.items ≡ bytes.old.items) }
    ensures room { at + length piece.now ≤ vec_capacity bytes.old → IsOk result }
{
    let Some(end) = at.checked_add(piece.len()) else {
        return Err(NoMemory);
    };
    grow(bytes, end, 0)?;
    overwrite(bytes, at, piece);
    Ok(())
}

/// Fills up with a byte where it is shorter.
pub(crate) fn grow(bytes: &mut Vec<u8>, end: usize, byte: u8) -> Result<(), NoMemory>
    ensures ok { OnOk result (bytes.new.items ≡ bytes.old.items ++ replicate (end - length bytes.old.items) byte) }
    ensures err { OnErr result (bytes.new.items ≡ bytes.old.items) }
    ensures room { end ≤ vec_capacity bytes.old → IsOk result }
{
    if bytes.len() < end {
        bytes.resize(end, byte)?;
    }
    Ok(())
}

fn overwrite(bytes: &mut [u8], at: usize, piece: &[u8])
    requires { at + length piece.now ≤ length bytes.old }
    ensures { bytes.new ≡ take at bytes.old ++ piece.now ++ drop (at + length piece.now) bytes.old }
{
    bytes[at..at + piece.len()].copy_from_slice(piece);
}
