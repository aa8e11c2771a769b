ghost use Rattle.std.specs.Prelude.{◌≡◌, ◌<◌, ◌≤◌, ◌-◌, ◌^◌, ◌↔◌, ◌++◌, [], length, take, drop, min, is_err, IfOk, OnErr, MatchResult};
ghost use Rattle.carte_io.specs.Causes.{HasCause, counted};
ghost use Rattle.carte_io.specs.Memory.{gave, holding, is_failing, source_failed};
ghost use Rattle.carte_io.specs.Streams.{Moves};

use crate::counts::{is_next_failing, one_more};
use crate::{Failed, NoMemory, Source};
use std::alloc::Global;
use std::marker::Model;

/// A source of given bytes. Each call gives as many as there are and have room, or at most so many, and the calls whose
/// numbers are in a list, counted from 1, fail instead.
#[derive(Drop)]
pub struct MemSource {
    bytes: Vec<u8>,
    place: usize,
    most: usize,
    failing: Vec<u64>,
    last: usize,
    calls: u64,
    faults: u64,
}

impl Model for MemSource {
    ghost use Rattle.std.specs.Prelude.{◌≤◌, drop, vec_len};
    ghost use Rattle.carte_io.specs.Memory.{MemoryOfSource};

    ghost Value = { MemoryOfSource };

    ghost view = { λ s. record {
      left = drop s.place s.bytes.items;
      most = s.most;
      failing = s.failing.items;
      last = s.last;
      calls = s.calls;
      faults = s.faults;
    } };

    ghost invariant = { λ s. (s.place ≤ vec_len s.bytes) × (1 ≤ s.most) };
}

impl MemSource {
    /// A source of these bytes, no call of which was made.
    pub fn of(alloc: Global, bytes: &[u8], failing: &[u64]) -> Result<MemSource, NoMemory>
        ensures { IfOk result (λ s. s ≡ holding bytes.now (2 ^ 64 - 1) failing.now) }
    {
        MemSource::slow(alloc, bytes, usize::MAX, failing)
    }

    /// The same of one that gives at most `most` bytes a call.
    pub fn slow(
        alloc: Global,
        bytes: &[u8],
        most: usize,
        failing: &[u64],
    ) -> Result<MemSource, NoMemory>
        requires { 1 ≤ most }
        ensures { IfOk result (λ s. s ≡ holding bytes.now most failing.now) }
    {
        Ok(MemSource {
            bytes: bytes.to_vec(alloc)?,
            place: 0,
            most,
            failing: failing.to_vec(alloc)?,
            last: 0,
            calls: 0,
            faults: 0,
        })
    }
}

impl Source for MemSource {
    ghost tells = { Unit {0} };

    ghost state = { λ s. record { left = s.left; faults = s.faults; last = s.last; reads = s.calls } };

    fn read(&mut self, into: &mut [u8]) -> Result<usize, Failed>
        ensures bound { IfOk result (λ n. n ≤ length into.old) }
        ensures bytes { IfOk result (λ n. Moves n self.old.left self.new.left into.old into.new) }
        ensures end { 0 < length into.old → IfOk result (λ n. (n ≡ 0) ↔ (self.old.left ≡ [])) }
        ensures failed { OnErr result (self.new.left ≡ self.old.left) }
        ensures last { MatchResult result (λ n. self.new.last ≡ n) (λ _. self.new.last ≡ self.old.last) }
        ensures reads { self.new.calls ≡ counted self.old.calls }
        ensures cause { HasCause self.old.faults self.new.faults result }

        // It fails where the list says so, and only there.
        ensures listed { is_err result ≡ is_failing self.old.failing self.old.calls }
        ensures ok { IfOk result (λ n. (n ≡ min self.old.most (min (length into.old) (length self.old.left))) × (self.new ≡ gave n self.old)) }
        ensures err { OnErr result ((self.new ≡ source_failed self.old) × (into.new ≡ into.old)) }
    {
        let calls = self.calls;
        self.calls = one_more(calls);
        if is_next_failing(&self.failing, calls) {
            self.faults = one_more(self.faults);
            return Err(Failed);
        }
        let count = copy_front(&self.bytes[self.place..], self.most, into);
        self.place += count;
        self.last = count;
        Ok(count)
    }
}

// Copies as much as there is and has room, at most so much.
fn copy_front(from: &[u8], most: usize, into: &mut [u8]) -> usize
    ensures count { result ≡ min most (min (length into.old) (length from.now)) }
    ensures front { into.new ≡ take result from.now ++ drop result into.old }
{
    let count = from.len().min(into.len()).min(most);
    into[..count].copy_from_slice(&from[..count]);
    count
}
