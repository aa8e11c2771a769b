ghost use Rattle.std.specs.Prelude.{◌≡◌, ◌<◌, ◌≤◌, ◌++◌, [], true, false, length, take, min, is_err, IfOk, OnOk, OnErr, IsErr};
ghost use Rattle.carte_io.specs.Causes.{HasCause};
ghost use Rattle.carte_io.specs.Memory.{finished, is_failing, sink_failed, took};

use crate::counts::{is_next_failing, one_more};
use crate::{Failed, NoMemory, Sink};
use std::alloc::Global;

/// A sink that keeps what it takes, at most so many bytes a call. The calls of `write` and `finish` whose
/// numbers are in a list, counted together from 1, fail.
#[derive(Drop)]
pub struct MemSink {
    taken: Vec<u8>,
    handed: usize,
    most: usize,
    failing: Vec<u64>,
    calls: u64,
    faults: u64,
    ghost handed_taken: { handed ≤ length taken.items },
    ghost takes_some: { 1 ≤ most },
}

impl MemSink {
    ghost use Rattle.carte_io.specs.Sinks.{memory_of};

    /// A sink that has taken nothing, no call of which was made.
    pub fn new(alloc: Global, most: usize, failing: &[u64]) -> Result<MemSink, NoMemory>
        requires { 1 ≤ most }
        ensures { IfOk result (λ s. memory_of s ≡ record { taken = []; handed = 0; most = most; failing = failing.now; calls = 0; faults = 0 }) }
    {
        Ok(MemSink {
            taken: Vec::new(alloc),
            handed: 0,
            most,
            failing: failing.to_vec(alloc)?,
            calls: 0,
            faults: 0,
        })
    }

    /// The bytes taken.
    pub fn bytes(&self) -> &[u8]
        ensures { result.now ≡ (memory_of self.now).taken }
    {
        &self.taken
    }

    /// How many of the bytes taken were handed on.
    pub fn handed(&self) -> usize
        ensures { result ≡ (memory_of self.now).handed }
    {
        self.handed
    }

    /// How often it failed.
    pub fn faults(&self) -> u64
        ensures { result ≡ (memory_of self.now).faults }
    {
        self.faults
    }
}

impl Sink for MemSink {
    ghost use Rattle.carte_io.specs.Sinks.{memory_of};

    ghost tells = { Unit {0} };

    ghost state = { λ s. record { taken = s.taken.items; handed = s.handed; faults = s.faults } };

    ghost handed_taken = { λ s _. s.handed_taken };

    fn write(&mut self, piece: &[u8]) -> Result<usize, Failed>
        ensures bound { IfOk result (λ n. n ≤ length piece.now) }
        ensures some { 0 < length piece.now → IfOk result (λ n. 0 < n) }
        ensures bytes { IfOk result (λ n. self.new.taken.items ≡ self.old.taken.items ++ take n piece.now) }
        ensures failed { OnErr result (self.new.taken.items ≡ self.old.taken.items) }
        ensures kept { self.old.handed ≤ self.new.handed }
        ensures cause { HasCause self.old.faults self.new.faults result }

        // It fails where the list says so, and else only for want of memory, of which no bytes need none.
        ensures listed { is_failing (memory_of self.old).failing (memory_of self.old).calls ≡ true → IsErr result }
        ensures unlisted { is_failing (memory_of self.old).failing (memory_of self.old).calls ≡ false → OnErr result (0 < length piece.now) }
        ensures ok { IfOk result (λ n. (n ≡ min (memory_of self.old).most (length piece.now)) × (memory_of self.new ≡ took (take n piece.now) (memory_of self.old))) }
        ensures err { OnErr result (memory_of self.new ≡ sink_failed (memory_of self.old)) }
    {
        let calls = self.calls;
        self.calls = one_more(calls);
        let count = piece.len().min(self.most);
        if is_next_failing(&self.failing, calls)
            || self.taken.extend_from_slice(&piece[..count]).is_err()
        {
            self.faults = one_more(self.faults);
            return Err(Failed);
        }
        Ok(count)
    }

    fn finish(&mut self) -> Result<(), Failed>
        ensures same { self.new.taken.items ≡ self.old.taken.items }
        ensures all { OnOk result (self.new.handed ≡ length self.old.taken.items) }
        ensures kept { self.old.handed ≤ self.new.handed }
        ensures cause { HasCause self.old.faults self.new.faults result }

        // It fails where the list says so, and only there.
        ensures listed { is_err result ≡ is_failing (memory_of self.old).failing (memory_of self.old).calls }
        ensures ok { OnOk result (memory_of self.new ≡ finished (memory_of self.old)) }
        ensures err { OnErr result (memory_of self.new ≡ sink_failed (memory_of self.old)) }
    {
        let calls = self.calls;
        self.calls = one_more(calls);
        if is_next_failing(&self.failing, calls) {
            self.faults = one_more(self.faults);
            return Err(Failed);
        }
        self.handed = self.taken.len();
        Ok(())
    }
}
