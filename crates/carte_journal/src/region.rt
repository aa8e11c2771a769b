// Bodies as a rewriting writes them.
ghost use Rattle.std.specs.Prelude.{◌≡◌, ◌+◌, ◌<◌, ◌≤◌, ◌^◌, ◌++◌, ◌∷◌, [], length, List, ℕ, IfOk, OnOk};
ghost use Rattle.std.specs.Int.{to_be_bytes, w32};
ghost use Rattle.carte_bank.specs.Roots.{start_of};
ghost use Rattle.carte_bank.specs.Turns.{AreInFront};
ghost use Rattle.carte_journal.specs.Regions.{AreShort, IsPlaced, IsRegionOf, bytes_of, first_front, front_of, region_at, region_end, region_of};

use crate::Bodies;
use carte_bank::{Roots, root_bytes};
use carte_value::NoMemory;
use std::alloc::Global;
use std::marker::Model;

/// The bytes that a rewriting writes, and where they go. It is made before the rewriting, so that this needs no
/// memory.
#[derive(Drop)]
pub struct Region {
    gate: u64,
    bank: Option<Roots>,
    at: u64,
    frames: u64,
    piece: Vec<u8>,
}

impl Model for Region {
    ghost use Rattle.carte_journal.specs.Regions.{IsPlaced, Planned};

    ghost Value = { Planned };

    ghost view = { λ r. record { gate = r.gate; bank = r.bank; at = r.at; frames = r.frames; piece = r.piece.items } };

    ghost invariant = { λ r. IsPlaced (record { gate = r.gate; bank = r.bank; at = r.at; frames = r.frames; piece = r.piece.items }) };
}

impl Region {
    /// The region of these bodies, in a file whose bank has these roots and ends at this gate byte.
    pub(crate) fn of(
        alloc: Global,
        gate: u64,
        bank: Option<Roots>,
        bodies: &Bodies,
    ) -> Result<Region, NoMemory>
        requires gate { gate < 2 ^ 32 }
        requires start { start_of bank ≤ gate }
        requires roots { AreInFront bank }
        requires short { AreShort (bytes_of bodies.now) }
        ensures region { IfOk result (λ r. IsRegionOf r (bytes_of bodies.now)) }
        ensures planned { IfOk result (λ r. (r.gate ≡ gate) × (r.bank ≡ bank)) }
    {
        let mut piece = front(alloc, gate, bank)?;
        add_frames(&mut piece, bodies)?;
        piece.push(0)?;
        let at = place(gate, bank, piece.len() as u64);
        Ok(Region {
            gate,
            bank,
            at,
            frames: bodies.len() as u64,
            piece,
        })
    }

    /// The closed gate byte of the journal that it was planned for.
    pub(crate) fn gate(&self) -> u64
        ensures gate { result ≡ self.now.gate }
        ensures placed { IsPlaced self.now }
    {
        self.gate
    }

    /// The roots of that journal.
    pub(crate) fn bank(&self) -> Option<Roots>
        ensures bank { result ≡ self.now.bank }
        ensures placed { IsPlaced self.now }
    {
        self.bank
    }

    /// Where its frames start.
    pub(crate) fn at(&self) -> u64
        ensures at { result ≡ self.now.at }
        ensures placed { IsPlaced self.now }
    {
        self.at
    }

    /// How many frames it has.
    pub(crate) fn frames(&self) -> u64
        ensures { result ≡ self.now.frames }
    {
        self.frames
    }

    /// The bytes that are written.
    pub(crate) fn piece(&self) -> &[u8]
        ensures { result.now ≡ self.now.piece }
    {
        &self.piece
    }

    /// How many bytes the file needs with it.
    pub fn needed(&self) -> u64
        ensures needed { result ≡ region_end self.now }
        ensures placed { IsPlaced self.now }
    {
        let start = match self.bank {
            Some(_) => self.at,
            None => self.gate + 1,
        };
        start + self.piece.len() as u64
    }

    /// How many bytes it has itself, without the move and the roots in front of a first one.
    pub fn length(&self) -> u64
        ensures { (bodies : List (List ℕ)) → IsRegionOf self.now bodies → result ≡ length (region_of bodies) }
    {
        self.needed() - self.at
    }
}

/// Where a region of this length goes.
pub(crate) fn place(gate: u64, bank: Option<Roots>, length: u64) -> u64
    requires gate { gate < 2 ^ 32 }
    requires roots { AreInFront bank }
    ensures { result ≡ region_at bank gate length }
{
    match bank {
        Some(roots) => roots.region_place(gate, length),
        None => gate + 49,
    }
}

// What is written in front of a region.
fn front(alloc: Global, gate: u64, bank: Option<Roots>) -> Result<Vec<u8>, NoMemory>
    requires { gate < 2 ^ 32 }
    ensures { IfOk result (λ v. v.items ≡ front_of bank gate) }
{
    match bank {
        Some(_) => Ok(Vec::new(alloc)),
        None => first_front(alloc, gate + 15),
    }
}

// A move in a frame behind its gate byte, and the roots to which it leads.
fn first_front(alloc: Global, place: u64) -> Result<Vec<u8>, NoMemory>
    requires { place < 2 ^ 33 }
    ensures { IfOk result (λ v. v.items ≡ first_front place) }
{
    let mut front = Vec::new(alloc);
    front.extend_from_slice(9u32.to_be_bytes().as_slice())?;
    front.push(2)?;
    front.extend_from_slice(place.to_be_bytes().as_slice())?;
    front.extend_from_slice([0, 1].as_slice())?;
    front.extend_from_slice(root_bytes(1, place + 34).as_slice())?;
    front.extend_from_slice([0; 17].as_slice())?;
    Ok(front)
}

// The frames of bodies, all of them open.
fn add_frames(piece: &mut Vec<u8>, bodies: &Bodies) -> Result<(), NoMemory>
    requires { AreShort (bytes_of bodies.now) }
    ensures { OnOk result (piece.new.items ++ 0 ∷ [] ≡ piece.old.items ++ region_of (bytes_of bodies.now)) }
{
    for body in bodies.as_slice() {
        add_frame(piece, body.bytes())?;
    }
    Ok(())
}

fn add_frame(piece: &mut Vec<u8>, body: &[u8]) -> Result<(), NoMemory>
    requires { length body.now < 2 ^ 32 }
    ensures { OnOk result (piece.new.items ≡ piece.old.items ++ 1 ∷ (to_be_bytes w32 (length body.now) ++ body.now)) }
{
    piece.push(1)?;
    piece.extend_from_slice((body.len() as u32).to_be_bytes().as_slice())?;
    piece.extend_from_slice(body)?;
    Ok(())
}
