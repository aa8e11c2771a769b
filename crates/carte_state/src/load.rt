// Reading what a file keeps.
ghost use Rattle.std.specs.Prelude.{◌≡◌, ◌≢◌, ◌<◌, ◌^◌, ◌∷◌, [], ℕ, false, true, length, List, IfOk, Err};
ghost use Rattle.carte_io.specs.Causes.{HasCauseOf};
ghost use Rattle.carte_state.specs.Columns.{are_four};
ghost use Rattle.carte_state.specs.Folding.{IsBadBody, IsBadState, IsFolded};
ghost use Rattle.carte_state.specs.Parts.{ReadsEach, ReadsPart, ReadsTo, bodies_in, made_view};
ghost use Rattle.carte_state.specs.declared.parts.Part.{Part as SomePart};
ghost use Rattle.carte_state.specs.States.{IsLoaded};
ghost use Rattle.carte_state.specs.Versions.{Fresh};

use crate::columns::{are_cut, can_cut, kept_by_columns};
use crate::made::Made;
use crate::parts::{Found, bytes_of, cut, found_in, part_count, read_parts, weight_of};
use crate::{LoadFault, State};
use carte_io::{Disk, Gate};
use carte_journal::{Bodies, Body, Journal};
use carte_value::{NoMemory, Seeded};
use std::alloc::Global;
use std::marker::Sync;
use std::thread::Threads;

impl State {
    /// Reads what the file keeps: its batches up to the first closed gate byte, put one into another. A new file keeps
    /// nothing. The file is read once, nothing is written, and none of its bytes are held afterwards.
    /// The tables of what is kept are made with `hasher`.
    pub fn load<D: Disk>(
        alloc: Global,
        disk: &mut D,
        limit: u64,
        hasher: Seeded,
    ) -> Result<State, LoadFault>
        requires { limit < 2 ^ 32 }
        ensures read { D.tells → IfOk result (λ s. IsLoaded s (D.story disk.old).now.reads) }
        ensures starts { IfOk result (λ s. (s.journal.limit ≡ limit) × (s.journal.broken ≡ false)) }

        // A state is bad exactly where the definition says: the first frame that doesn't lie in the file, or else the
        // first body that is no batch, or is one of a kind that can't come there.
        ensures bad { D.tells → (offset : ℕ) → result ≡ Err (LoadFault.BadState offset)
            → IsBadState limit (D.story disk.old).now.reads offset }
        ensures cause { HasCauseOf LoadFault.DiskFault (D.faults disk.old) (D.faults disk.new) result }
        ensures same { D.tells → D.story disk.new ≡ D.story disk.old }
    {
        let (journal, bodies) = Journal::load(alloc, disk, limit)?;
        let made = folded(alloc, bodies, hasher)?;
        Ok(State::of(alloc, journal, made, hasher))
    }

    /// The same by at most so many threads, and one at least: the bodies are read in neighbouring parts, side by side, and
    /// then put one into another in their order, long ones of kind 4 list by list, side by side. Before the first body of a
    /// part the gate is entered. What it comes to doesn't depend on how many there are. Until they are put together, all
    /// batches are held at once.
    pub fn load_by<D: Disk, G: Gate, T: Threads + Sync>(
        rt: &T,
        alloc: Global,
        disk: &mut D,
        limit: u64,
        hasher: Seeded,
        workers: usize,
        gate: &G,
    ) -> Result<State, LoadFault>
        requires { limit < 2 ^ 32 }
        ensures read { D.tells → IfOk result (λ s. IsLoaded s (D.story disk.old).now.reads) }
        ensures starts { IfOk result (λ s. (s.journal.limit ≡ limit) × (s.journal.broken ≡ false)) }
        ensures bad { D.tells → (offset : ℕ) → result ≡ Err (LoadFault.BadState offset)
            → IsBadState limit (D.story disk.old).now.reads offset }
        ensures cause { HasCauseOf LoadFault.DiskFault (D.faults disk.old) (D.faults disk.new) result }
        ensures same { D.tells → D.story disk.new ≡ D.story disk.old }
    {
        let (journal, bodies) = Journal::load(alloc, disk, limit)?;
        let made = folded_by(rt, alloc, bodies, hasher, workers, gate)?;
        Ok(State::of(alloc, journal, made, hasher))
    }
}

// What the bodies make of nothing, read by at most so many threads. Few bytes are read as `load` does.
fn folded_by<G: Gate, T: Threads + Sync>(
    rt: &T,
    alloc: Global,
    bodies: Bodies,
    hasher: Seeded,
    workers: usize,
    gate: &G,
) -> Result<Made, LoadFault>
    ensures folded { IfOk result (λ made. IsFolded Fresh bodies (made_view made)) }
    ensures bad { (offset : ℕ) → result ≡ Err (LoadFault.BadState offset) → IsBadBody Fresh bodies offset }
    ensures disk { result ≢ Err LoadFault.DiskFault }
{
    let bytes = bytes_of(bodies.as_slice());
    let number = bodies.len();
    let count = part_count(number, bytes, workers, gate.wants_all());
    if count == 1 {
        if number > 0 {
            gate.enter(0);
        }
        return folded(alloc, bodies, hasher);
    }
    let is_cut = are_cut(number, bytes, gate.wants_all());
    let parts = cut(alloc, bodies.into_vec(), bytes, count)?;
    let read = read_parts(rt, alloc, parts, hasher, gate)?;
    put_read(rt, alloc, read, hasher, count, is_cut)
}

// What the bodies of all parts make of nothing, column by column where batches are cut and can be.
fn put_read<T: Threads + Sync>(
    rt: &T,
    alloc: Global,
    parts: Vec<Result<Vec<Found>, NoMemory>>,
    hasher: Seeded,
    workers: usize,
    is_cut: bool,
) -> Result<Made, LoadFault>
    ensures { (ps : List SomePart) → (is_cut ≡ true → bodies_in ps ≢ []) → length parts.items ≡ length ps → ReadsEach ps parts.items → ReadsTo made_view Fresh (bodies_in ps) result }
{
    if can_cut(parts.as_slice(), is_cut) {
        return put_side_by_side(rt, alloc, parts, hasher, workers);
    }
    put_together(alloc, parts, hasher)
}

// What the bodies of all parts make of nothing, where all are of kind 4.
fn put_side_by_side<T: Threads + Sync>(
    rt: &T,
    alloc: Global,
    parts: Vec<Result<Vec<Found>, NoMemory>>,
    hasher: Seeded,
    workers: usize,
) -> Result<Made, LoadFault>
    ensures { (ps : List SomePart) → are_four parts.items ≡ true → bodies_in ps ≢ [] → length parts.items ≡ length ps → ReadsEach ps parts.items → ReadsTo made_view Fresh (bodies_in ps) result }
{
    match kept_by_columns(rt, alloc, parts, hasher, workers) {
        Ok(kept) => Ok(Made::Now(kept)),
        Err(_) => Err(LoadFault::NoMemory),
    }
}

// What the bodies of all parts make of nothing.
fn put_together(
    alloc: Global,
    parts: Vec<Result<Vec<Found>, NoMemory>>,
    hasher: Seeded,
) -> Result<Made, LoadFault>
    ensures { (ps : List SomePart) → length parts.items ≡ length ps → ReadsEach ps parts.items → ReadsTo made_view Fresh (bodies_in ps) result }
{
    let mut made = Made::Nothing;
    for part in parts {
        take_part(&mut made, alloc, part, hasher)?;
    }
    Ok(made)
}

fn take_part(
    made: &mut Made,
    alloc: Global,
    part: Result<Vec<Found>, NoMemory>,
    hasher: Seeded,
) -> Result<(), LoadFault>
    ensures { (p : SomePart) → ReadsPart p part → ReadsTo (λ _. made_view made.new) (made_view made.old) p.bodies.items result }
{
    match part {
        Ok(founds) => made.take_all(alloc, founds, hasher),
        Err(_) => Err(LoadFault::NoMemory),
    }
}

// What the bodies make of nothing.
fn folded(alloc: Global, bodies: Bodies, hasher: Seeded) -> Result<Made, LoadFault>
    ensures folded { IfOk result (λ made. IsFolded Fresh bodies (made_view made)) }
    ensures bad { (offset : ℕ) → result ≡ Err (LoadFault.BadState offset) → IsBadBody Fresh bodies offset }
    ensures disk { result ≢ Err LoadFault.DiskFault }
{
    take_each(alloc, bodies, hasher)
}

// Each is let go before what it makes grows.
fn take_each(alloc: Global, bodies: Bodies, hasher: Seeded) -> Result<Made, LoadFault>
    ensures { ReadsTo made_view Fresh bodies result }
{
    let mut made = Made::Nothing;
    let mut left = bytes_of(bodies.as_slice());
    let items = bodies.into_vec();
    for body in items {
        let weight = weight_of(&body);
        left = left.saturating_sub(weight);
        take_body(&mut made, alloc, body, left / weight, hasher)?;
    }
    Ok(made)
}

// Behind it stands so many times as much.
fn take_body(
    made: &mut Made,
    alloc: Global,
    body: Body,
    times: usize,
    hasher: Seeded,
) -> Result<(), LoadFault>
    ensures { ReadsTo (λ _. made_view made.new) (made_view made.old) (body ∷ []) result }
{
    match found_in(alloc, body, hasher) {
        Ok(found) => made.take_before(alloc, found, times, hasher),
        Err(_) => Err(LoadFault::NoMemory),
    }
}
