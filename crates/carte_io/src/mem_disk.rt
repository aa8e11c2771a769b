// A disk in memory.
ghost use Rattle.std.specs.Prelude.{◌≡◌, ◌+◌, ◌<◌, ◌≤◌, ◌-◌, ◌^◌, ◌++◌, ◌∷◌, [], true, false, length, take, drop, Some, min, is_err, IfOk, OnOk, OnErr, IsErr};
ghost use Rattle.carte_io.specs.Causes.{HasCause, counted};
ghost use Rattle.carte_io.specs.Crashes.{IsPicked};
ghost use Rattle.carte_io.specs.Disk.{IsImage, IsSettled, FailsToSync, FailsToWrite, did_sync, wrote};
ghost use Rattle.carte_io.specs.declared.passed.Passed.TheVariants.{Synced, Wrote};
ghost use Rattle.carte_io.specs.MemDisks.{begun_disk, disk_failed, disk_passed, disk_read, is_refusing, is_stopped, story_of};

use crate::counts::{is_next_failing, one_more};
use crate::crashes::{filled_image, synced_image};
use crate::passed::{Passed, note, write_and_note};
use crate::{Disk, Failed, NoMemory, Pick};
use std::alloc::Global;
use std::marker::Model;

/// A disk in memory, which tells everything. It keeps the calls that passed, so that it can show what a crash
/// leaves. The calls whose numbers are in a list, counted together from 1, fail, and so does each call once
/// as many writing calls passed as it was to stop after.
#[derive(Drop)]
pub struct MemDisk {
    alloc: Global,
    first: Vec<u8>,
    bytes: Vec<u8>,
    passed: Vec<Passed>,
    failing: Vec<u64>,
    stop: Option<u64>,
    calls: u64,
    faults: u64,
}

impl Model for MemDisk {
    ghost use Rattle.std.specs.Prelude.{◌≡◌};
    ghost use Rattle.carte_io.specs.MemDisks.{MemoryOfDisk, after_calls, begun};

    ghost Value = { MemoryOfDisk };

    ghost view = { λ d. record {
      first = d.first.items;
      passed = d.passed.items;
      failing = d.failing.items;
      stop = d.stop;
      calls = d.calls;
      faults = d.faults;
    } };

    ghost invariant = { λ d. d.bytes.items ≡ (after_calls (begun d.first.items) d.passed.items).now.reads };
}

impl MemDisk {
    /// A disk that has these bytes, all of them synced, and no call of which was made.
    pub fn of(alloc: Global, bytes: &[u8], failing: &[u64]) -> Result<MemDisk, NoMemory>
        ensures begins { IfOk result (λ d. d ≡ begun_disk bytes.now failing.now) }
        ensures settled { IfOk result (λ d. IsSettled (story_of d).now) }
    {
        Ok(MemDisk {
            alloc,
            first: bytes.to_vec(alloc)?,
            bytes: bytes.to_vec(alloc)?,
            passed: Vec::new(alloc),
            failing: failing.to_vec(alloc)?,
            stop: None,
            calls: 0,
            faults: 0,
        })
    }

    /// What a read gives.
    pub fn bytes(&self) -> &[u8]
        ensures { result.now ≡ (story_of self.now).now.reads }
    {
        &self.bytes
    }

    /// How many calls of `write_at` and `sync` passed.
    pub fn passed(&self) -> u64
        ensures { result ≡ (story_of self.now).now.passed }
    {
        self.passed.len() as u64
    }

    /// Lets so many more calls of `write_at` and `sync` pass, and then each call fail.
    pub fn stop_after(&mut self, writing_calls: u64)
        ensures { self.new ≡ record self.old { stop = Some (min (length self.old.passed + writing_calls) (2 ^ 64 - 1)) } }
    {
        self.stop = Some((self.passed.len() as u64).saturating_add(writing_calls));
    }

    /// The disk after a crash, which has the image that is picked, all of it synced. No call of it was made,
    /// and none is to fail.
    pub fn crash(&self, alloc: Global, pick: Pick) -> Result<MemDisk, NoMemory>
        ensures picked { IfOk result (λ d. IsPicked pick (story_of self.now).now d.first) }
        ensures image { IfOk result (λ d. IsImage (story_of self.now).now d.first) }
        ensures begins { IfOk result (λ d. d ≡ begun_disk d.first []) }
        ensures settled { IfOk result (λ d. IsSettled (story_of d).now) }
    {
        let image = self.image(alloc, pick)?;
        let disk = MemDisk::of(alloc, &image, &[])?;
        Ok(disk)
    }

    fn image(&self, alloc: Global, pick: Pick) -> Result<Vec<u8>, NoMemory>
        ensures { IfOk result (λ image. IsPicked pick (story_of self.now).now image.items) }
    {
        match pick {
            Pick::Lost => synced_image(alloc, &self.first, &self.passed),
            Pick::Kept => Ok(self.bytes.to_vec(alloc)?),
            Pick::Fill(byte) => filled_image(alloc, &self.first, &self.passed, byte),
        }
    }

    // Counts a call, and whether it is to fail.
    fn admit(&mut self) -> Result<(), Failed>
        ensures refuses { is_err result ≡ is_refusing self.old }
        ensures ok { OnOk result (self.new ≡ disk_read self.old) }
        ensures on { OnOk result (is_stopped self.new.stop (length self.new.passed) ≡ false) }
        ensures err { OnErr result (self.new ≡ disk_failed self.old) }
        ensures cause { HasCause self.old.faults self.new.faults result }
    {
        let calls = self.calls;
        self.calls = one_more(calls);
        if is_next_failing(&self.failing, calls) || self.is_stopped() {
            self.faults = one_more(self.faults);
            return Err(Failed);
        }
        Ok(())
    }

    // A write that was counted, and is to pass where there is memory.
    fn write_admitted(&mut self, at: u64, piece: &[u8]) -> Result<(), Failed>
        requires { is_stopped self.old.stop (length self.old.passed) ≡ false }
        ensures ok { OnOk result (story_of self.new ≡ wrote at piece.now (story_of self.old)) }
        ensures passed { OnOk result (self.new ≡ record self.old { passed = self.old.passed ++ Wrote at piece.now ∷ [] }) }
        ensures failed { OnErr result (self.new ≡ record self.old { faults = counted self.old.faults }) }
        ensures cause { HasCause self.old.faults self.new.faults result }
    {
        match write_and_note(self.alloc, &mut self.bytes, &mut self.passed, at, piece) {
            Ok(()) => Ok(()),
            Err(_) => {
                self.faults = one_more(self.faults);
                Err(Failed)
            }
        }
    }

    // A sync that was counted, and is to pass where there is memory for its note.
    fn sync_admitted(&mut self) -> Result<(), Failed>
        requires { is_stopped self.old.stop (length self.old.passed) ≡ false }
        ensures ok { OnOk result (story_of self.new ≡ did_sync (story_of self.old)) }
        ensures passed { OnOk result (self.new ≡ record self.old { passed = self.old.passed ++ Synced ∷ [] }) }
        ensures failed { OnErr result (self.new ≡ record self.old { faults = counted self.old.faults }) }
        ensures cause { HasCause self.old.faults self.new.faults result }
    {
        match note(&mut self.passed, Passed::Synced) {
            Ok(()) => Ok(()),
            Err(_) => {
                self.faults = one_more(self.faults);
                Err(Failed)
            }
        }
    }

    fn is_stopped(&self) -> bool
        ensures { result ≡ is_stopped self.now.stop (length self.now.passed) }
    {
        match self.stop {
            None => false,
            Some(stop) => stop <= self.passed.len() as u64,
        }
    }
}

impl Disk for MemDisk {
    ghost use Rattle.carte_io.specs.MemDisks.{image_of, in_order_of, story_of, within_of};

    ghost tells = { Unit {0} };

    ghost story = { story_of };

    ghost faults = { λ d. d.faults };

    ghost is_image = { λ d _. image_of d };

    ghost in_order = { λ d _. in_order_of d };

    ghost within = { λ d _. within_of d };

    fn len(&mut self) -> Result<u64, Failed>
        ensures length { IfOk result (λ n. n ≡ length (story_of self.old).now.reads) }
        ensures same { story_of self.new ≡ story_of self.old }
        ensures cause { HasCause self.old.faults self.new.faults result }

        // It fails where the list or a stop says so, and only there.
        ensures refuses { is_err result ≡ is_refusing self.old }
        ensures ok { OnOk result (self.new ≡ disk_read self.old) }
        ensures failed { OnErr result (self.new ≡ disk_failed self.old) }
    {
        self.admit()?;
        Ok(self.bytes.len() as u64)
    }

    fn read_at(&mut self, at: u64, into: &mut [u8]) -> Result<(), Failed>
        requires { at + length into.old ≤ length (story_of self.old).now.reads }
        ensures bytes { OnOk result (into.new ≡ take (length into.old) (drop at (story_of self.old).now.reads)) }
        ensures same { story_of self.new ≡ story_of self.old }
        ensures cause { HasCause self.old.faults self.new.faults result }

        // It fails where the list or a stop says so, and only there.
        ensures refuses { is_err result ≡ is_refusing self.old }
        ensures ok { OnOk result (self.new ≡ disk_read self.old) }
        ensures failed { OnErr result ((self.new ≡ disk_failed self.old) × (into.new ≡ into.old)) }
    {
        self.admit()?;
        copy_from(self.bytes(), at as usize, into);
        Ok(())
    }

    fn write_at(&mut self, at: u64, piece: &[u8]) -> Result<(), Failed>
        ensures ok { OnOk result (story_of self.new ≡ wrote at piece.now (story_of self.old)) }
        ensures err { OnErr result (FailsToWrite at (length piece.now) (story_of self.old) (story_of self.new)) }
        ensures cause { HasCause self.old.faults self.new.faults result }

        // It fails where the list or a stop says so, and else only for want of memory.
        ensures refuses { is_refusing self.old ≡ true → IsErr result }
        ensures passed { OnOk result (self.new ≡ disk_passed (Wrote at piece.now) self.old) }
        ensures failed { OnErr result (self.new ≡ disk_failed self.old) }
    {
        self.admit()?;
        self.write_admitted(at, piece)
    }

    fn sync(&mut self) -> Result<(), Failed>
        ensures ok { OnOk result (story_of self.new ≡ did_sync (story_of self.old)) }
        ensures err { OnErr result (FailsToSync (story_of self.old) (story_of self.new)) }
        ensures cause { HasCause self.old.faults self.new.faults result }

        // It fails where the list or a stop says so, and else only for want of memory.
        ensures refuses { is_refusing self.old ≡ true → IsErr result }
        ensures passed { OnOk result (self.new ≡ disk_passed Synced self.old) }
        ensures failed { OnErr result (self.new ≡ disk_failed self.old) }
    {
        self.admit()?;
        self.sync_admitted()
    }
}

fn copy_from(bytes: &[u8], at: usize, into: &mut [u8])
    requires { at + length into.old ≤ length bytes.now }
    ensures { into.new ≡ take (length into.old) (drop at bytes.now) }
{
    into.copy_from_slice(&bytes[at..at + into.len()]);
}
