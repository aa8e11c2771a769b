// Reading the bodies of a file.
ghost use Rattle.std.specs.Prelude.{◌≡◌, ◌+◌, ◌-◌, ◌<◌, ◌≤◌, ◌^◌, ◌++◌, ◌∷◌, ℕ, [], true, false, length, MatchOption, IsOkUnless, IfOk, IfSome, Err};
ghost use Rattle.carte_io.specs.Causes.{HasCauseOf};
ghost use Rattle.carte_bank.specs.Roots.{Astray, Known, bank_at, bank_by, roots_of, start_of};
ghost use Rattle.carte_bank.specs.Turns.{AreInFront};
ghost use Rattle.carte_journal.specs.Frames.{Bad, Ends, add, end_of, frames_from, reading};
ghost use Rattle.carte_journal.specs.Journals.{IsRead};

use crate::reads::{has_header, read_bytes};
use crate::{Bodies, Body, Journal, LoadFault};
use carte_bank::{FrameAt, Move, Roots, find_move, read_frame, read_roots};
use carte_io::Disk;
use std::alloc::Global;

impl Journal {
    /// Reads the bodies of the frames up to the first closed gate byte: those of the bank to which a move leads, or
    /// of the list where there is none. A file of at most 9 bytes is a new one, whatever it holds. Nothing is written.
    pub fn load<D: Disk>(
        alloc: Global,
        disk: &mut D,
        limit: u64,
    ) -> Result<(Journal, Bodies), LoadFault>
        requires { limit < 2 ^ 32 }
        ensures read { D.tells → IfOk result (λ r. IsRead r.0 r.1 (D.story disk.old).now.reads) }
        ensures starts { IfOk result (λ r. (r.0.limit ≡ limit) × (r.0.broken ≡ false)) }

        // So a state is bad exactly where the definition says.
        ensures bad { D.tells → (offset : ℕ) → result ≡ Err (LoadFault.BadState offset)
            → reading limit (D.story disk.old).now.reads ≡ Bad offset }
        ensures cause { HasCauseOf LoadFault.DiskFault (D.faults disk.old) (D.faults disk.new) result }
        ensures same { D.tells → D.story disk.new ≡ D.story disk.old }
    {
        let len = disk.len()?;
        if len <= 9 {
            return Ok((Journal::new(limit), Bodies::new(alloc)));
        }
        if !has_header(disk)? {
            return Err(LoadFault::BadState(0));
        }
        let bank = load_bank(disk, len, limit)?;
        let (gate, bodies) = load_bodies(alloc, disk, len, limit, first_gate(bank))?;
        Ok((Journal::at(limit, bank, gate, bodies.len()), bodies))
    }
}

// The roots of the bank that has a file's bodies, or none where they stand in the list.
fn load_bank<D: Disk>(disk: &mut D, len: u64, limit: u64) -> Result<Option<Roots>, LoadFault>
    requires limit { limit < 2 ^ 32 }
    requires long { 9 < len }
    requires len { D.tells → len ≡ length (D.story disk.old).now.reads }
    ensures known { D.tells → IfOk result (λ bank. bank_at limit (D.story disk.old).now.reads ≡ Known bank) }
    ensures inside { IfOk result (λ bank. (start_of bank < len) × (start_of bank < 2 ^ 32)) }
    ensures roots { IfOk result (λ bank. AreInFront bank) }
    ensures bad { D.tells → (offset : ℕ) → result ≡ Err (LoadFault.BadState offset)
        → bank_at limit (D.story disk.old).now.reads ≡ Astray offset }
    ensures cause { HasCauseOf LoadFault.DiskFault (D.faults disk.old) (D.faults disk.new) result }
    ensures same { D.tells → D.story disk.new ≡ D.story disk.old }
{
    match find_move(disk, len, limit)? {
        Some(found) => load_roots(disk, len, limit, found),
        None => Ok(None),
    }
}

// The roots of the first move of a file.
fn load_roots<D: Disk>(
    disk: &mut D,
    len: u64,
    limit: u64,
    found: Move,
) -> Result<Option<Roots>, LoadFault>
    requires limit { limit < 2 ^ 32 }
    requires low { found.gate + 15 ≤ limit }
    requires len { D.tells → len ≡ length (D.story disk.old).now.reads }
    ensures known { D.tells → IfOk result (λ bank. bank_by found.gate (roots_of limit found (D.story disk.old).now.reads) ≡ Known bank) }
    ensures inside { IfOk result (λ bank. (start_of bank < len) × (start_of bank < 2 ^ 32)) }
    ensures roots { IfOk result (λ bank. AreInFront bank) }
    ensures bad { D.tells → (offset : ℕ) → result ≡ Err (LoadFault.BadState offset)
        → bank_by found.gate (roots_of limit found (D.story disk.old).now.reads) ≡ Astray offset }
    ensures cause { HasCauseOf LoadFault.DiskFault (D.faults disk.old) (D.faults disk.new) result }
    ensures same { D.tells → D.story disk.new ≡ D.story disk.old }
{
    match read_roots(disk, len, limit, found)? {
        Some(roots) => Ok(Some(roots)),
        None => Err(LoadFault::BadState(found.gate)),
    }
}

/// Where the frames of a bank start.
pub(crate) fn first_gate(bank: Option<Roots>) -> u64
    ensures { result ≡ start_of bank }
{
    match bank {
        Some(roots) => roots.start,
        None => 8,
    }
}

// The bodies from a gate byte on, and the closed gate byte behind them.
fn load_bodies<D: Disk>(
    alloc: Global,
    disk: &mut D,
    len: u64,
    limit: u64,
    start: u64,
) -> Result<(u64, Bodies), LoadFault>
    requires limit { limit < 2 ^ 32 }
    requires inside { start < len }
    requires small { start < 2 ^ 32 }
    requires len { D.tells → len ≡ length (D.story disk.old).now.reads }
    ensures read { D.tells → IfOk result (λ r. frames_from limit start (D.story disk.old).now.reads ≡ Ends r.0 r.1) }
    ensures gate { IfOk result (λ r. r.0 < 2 ^ 32) }
    ensures behind { IfOk result (λ r. start ≤ r.0) }
    ensures frames { IfOk result (λ r. length r.1 ≤ r.0) }
    ensures bad { D.tells → (offset : ℕ) → result ≡ Err (LoadFault.BadState offset)
        → frames_from limit start (D.story disk.old).now.reads ≡ Bad offset }
    ensures cause { HasCauseOf LoadFault.DiskFault (D.faults disk.old) (D.faults disk.new) result }
    ensures same { D.tells → D.story disk.new ≡ D.story disk.old }
{
    let mut gate = start;
    let mut bodies = Bodies::new(alloc);
    'frames: loop {
        let next = next_body(alloc, disk, len, limit, gate)?;
        match next {
            Some(bytes) => gate = add_body(&mut bodies, gate, bytes)?,
            None => return Ok((gate, bodies)),
        }
    }
}

// Adds the body of the frame at a gate byte, and gives the next gate byte.
fn add_body(bodies: &mut Bodies, gate: u64, bytes: Vec<u8>) -> Result<u64, LoadFault>
    requires end { end_of gate bytes.items < 2 ^ 64 }
    requires room { length bodies.old + 1 < 2 ^ 32 }
    ensures ok { IfOk result (λ end. (end ≡ end_of gate bytes.items) × (bodies.new ≡ bodies.old ++ (gate, bytes.items) ∷ [])) }
    ensures err { IsOkUnless result LoadFault.NoMemory }
{
    let end = gate + 5 + bytes.len() as u64;
    bodies.push(Body::with(gate, bytes))?;
    Ok(end)
}

// The body of the frame at a gate byte, or none where that is closed.
fn next_body<D: Disk>(
    alloc: Global,
    disk: &mut D,
    len: u64,
    limit: u64,
    gate: u64,
) -> Result<Option<Vec<u8>>, LoadFault>
    requires limit { limit < 2 ^ 32 }
    requires inside { gate < len }
    requires small { gate < 2 ^ 32 }
    requires len { D.tells → len ≡ length (D.story disk.old).now.reads }
    ensures read { D.tells → IfOk result (λ o. let file = (D.story disk.old).now.reads in MatchOption o
        (frames_from limit gate file ≡ Ends gate [])
        (λ bytes. frames_from limit gate file ≡ add (gate, bytes.items) (frames_from limit (end_of gate bytes.items) file))) }
    ensures fits { IfOk result (λ o. IfSome o (λ bytes. (end_of gate bytes.items < limit) × (end_of gate bytes.items < len))) }
    ensures bad { D.tells → (offset : ℕ) → result ≡ Err (LoadFault.BadState offset)
        → frames_from limit gate (D.story disk.old).now.reads ≡ Bad offset }
    ensures cause { HasCauseOf LoadFault.DiskFault (D.faults disk.old) (D.faults disk.new) result }
    ensures same { D.tells → D.story disk.new ≡ D.story disk.old }
{
    match read_frame(disk, len, limit, gate)? {
        FrameAt::Closed => Ok(None),
        FrameAt::Cut => Err(LoadFault::BadState(gate)),
        FrameAt::Whole(size) => {
            let bytes = read_bytes(alloc, disk, gate + 5, size as usize)?;
            Ok(Some(bytes))
        }
    }
}
