// Reading bodies in neighbouring parts, each by a thread of its own.
ghost use Rattle.std.specs.Prelude.{◌≡◌, ◌+◌, ◌<◌, ◌≤◌, ◌^◌, ◌++◌, ◌∷◌, [], false, length, IfOk, OnOk};
ghost use Rattle.carte_state.specs.Parts.{AreFound, IsFoundIn, ReadsEach, bodies_in, held_in};

use crate::any::{AnyBatch, decode_any};
use crate::room::Sizes;
use carte_io::Gate;
use carte_journal::Body;
use carte_value::{NoMemory, Seeded};
use std::alloc::Global;
use std::marker::Sync;
use std::mem::replace;
use std::thread;
use std::thread::Threads;

/// The fewest bytes for which a thread is worth its while: reading them takes some ten times as long as a fork.
const WORTH: usize = 1 << 15;

/// Neighbouring bodies.
#[derive(Drop)]
pub(crate) struct Part {
    number: usize,
    bodies: Vec<Body>,
}

/// What a body was read as: a batch, or none, and the offset of its gate byte.
#[derive(Drop)]
pub(crate) struct Found {
    pub(crate) offset: u64,
    pub(crate) batch: Option<AnyBatch>,
}

/// How many bytes bodies have.
pub(crate) fn bytes_of(bodies: &[Body]) -> usize {
    let mut bytes = 0usize;
    for body in bodies {
        bytes = bytes.saturating_add(weight_of(body));
    }
    bytes
}

/// The bytes of a body's frame, so that none weighs nothing.
pub(crate) fn weight_of(body: &Body) -> usize
    ensures { 0 < result }
{
    body.bytes().len().saturating_add(5)
}

/// How many parts so many bodies have: no more than there are workers, and one where they have few bytes and the gate
/// doesn't ask.
pub(crate) fn part_count(bodies: usize, bytes: usize, workers: usize, all: bool) -> usize
    ensures some { 0 < result }
    ensures most { 0 < workers → result ≤ workers }
    ensures fewer { 0 < bodies → result ≤ bodies }
    ensures few { all ≡ false → bytes < 2 ^ 16 → result ≡ 1 }
{
    let worth = if all { bodies } else { bytes / WORTH };
    worth.min(bodies).min(workers).max(1)
}

/// The bodies in at most so many neighbouring parts, which have about as many bytes each: a body is in the part in which
/// its middle lies.
pub(crate) fn cut(
    alloc: Global,
    bodies: Vec<Body>,
    bytes: usize,
    count: usize,
) -> Result<Vec<Part>, NoMemory>
    requires { 0 < count }
    ensures bodies { IfOk result (λ parts. bodies_in parts.items ≡ bodies.items) }
    ensures count { IfOk result (λ parts. length parts.items ≤ count) }
{
    let share = bytes.div_ceil(count).max(1);
    let mut cuts = Cuts::new(alloc);
    let mut before = 0usize;
    for body in bodies {
        let weight = weight_of(&body);
        let middle = before.saturating_add(weight / 2);
        cuts.come_to(alloc, middle / share, count)?;
        cuts.add(body)?;
        before = before.saturating_add(weight);
    }
    cuts.end_part(alloc)?;
    Ok(cuts.parts)
}

/// Parts that are whole, the bodies of one that was begun, and the place of the last of these.
#[derive(Drop)]
pub(crate) struct Cuts {
    parts: Vec<Part>,
    begun: Vec<Body>,
    place: usize,
}

impl Cuts {
    fn new(alloc: Global) -> Cuts
        ensures bodies { held_in result ≡ [] }
        ensures count { length result.parts.items ≡ 0 }
    {
        Cuts {
            parts: Vec::new(alloc),
            begun: Vec::new(alloc),
            place: 0,
        }
    }

    // The next body is at this place: where the last one's lay before it, the part that was begun ends.
    fn come_to(&mut self, alloc: Global, place: usize, count: usize) -> Result<(), NoMemory>
        requires { length self.old.parts.items < count }
        ensures bodies { OnOk result (held_in self.new ≡ held_in self.old) }
        ensures count { OnOk result (length self.new.parts.items < count) }
    {
        let ends = place > self.place && !self.begun.is_empty() && self.parts.len() + 1 < count;
        self.place = place;
        if ends { self.end_part(alloc) } else { Ok(()) }
    }

    fn add(&mut self, body: Body) -> Result<(), NoMemory>
        ensures bodies { OnOk result (held_in self.new ≡ held_in self.old ++ body ∷ []) }
        ensures parts { self.new.parts ≡ self.old.parts }
    {
        self.begun.push(body)?;
        Ok(())
    }

    fn end_part(&mut self, alloc: Global) -> Result<(), NoMemory>
        ensures bodies { OnOk result (bodies_in self.new.parts.items ≡ held_in self.old) }
        ensures begun { OnOk result (self.new.begun.items ≡ []) }
        ensures count { OnOk result (length self.new.parts.items ≡ length self.old.parts.items + 1) }
    {
        let number = self.parts.len();
        let bodies = replace(&mut self.begun, Vec::new(alloc));
        self.parts.push(Part { number, bodies })?;
        Ok(())
    }
}

/// Reads each part by a thread of its own, but for one.
pub(crate) fn read_parts<G: Gate, T: Threads + Sync>(
    rt: &T,
    alloc: Global,
    parts: Vec<Part>,
    hasher: Seeded,
    gate: &G,
) -> Result<Vec<Result<Vec<Found>, NoMemory>>, NoMemory>
    ensures len { IfOk result (λ read. length read.items ≡ length parts.items) }
    ensures each { IfOk result (λ read. ReadsEach parts.items read.items) }
{
    let read = thread::map_vec(rt, parts, &|part| read_part(alloc, part, hasher, gate))?;
    Ok(read)
}

// What the bodies of a part are. Each is let go once it is read. One that is no batch doesn't end it, since one before it
// may be of a kind that can't come there, which shows when the parts are put together.
fn read_part<G: Gate>(
    alloc: Global,
    part: Part,
    hasher: Seeded,
    gate: &G,
) -> Result<Vec<Found>, NoMemory>
    ensures { IfOk result (λ founds. AreFound part.bodies.items founds.items) }
{
    let Part { number, bodies } = part;
    gate.enter(number);
    let mut founds = Vec::with_capacity(alloc, bodies.len())?;
    for body in bodies {
        let found = found_in(alloc, body, hasher)?;
        put(&mut founds, found)?;
    }
    Ok(founds)
}

impl Found {
    /// What it brings, where it is a batch of kind 4.
    pub(crate) fn sizes(&self) -> Sizes {
        match &self.batch {
            Some(AnyBatch::Four(batch)) => Sizes::of(batch),
            _ => Sizes::none(),
        }
    }
}

/// What a body is.
pub(crate) fn found_in(alloc: Global, body: Body, hasher: Seeded) -> Result<Found, NoMemory>
    ensures { IfOk result (λ found. IsFoundIn body found) }
{
    let batch = decode_any(alloc, body.bytes(), hasher)?;
    Ok(Found {
        offset: body.offset(),
        batch,
    })
}

fn put(founds: &mut Vec<Found>, found: Found) -> Result<(), NoMemory>
    ensures { OnOk result (founds.new.items ≡ founds.old.items ++ found ∷ []) }
{
    founds.push(found)?;
    Ok(())
}
