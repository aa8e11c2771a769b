ghost use Rattle.std.specs.Prelude.{◌≡◌, ◌+◌, ◌<◌, ◌≤◌, ◌^◌, ◌++◌, ◌∷◌, ◌↔◌, [], true, false, None, IsTrue, IsOkUnless, length, IfOk, OnOk, OnErr, Err, List, ℕ};
ghost use Rattle.carte_io.specs.Causes.{HasCauseOf};
ghost use Rattle.carte_io.specs.Stations.{StepsThrough};
ghost use Rattle.carte_journal.specs.Frames.{BodyAt, Ends};
ghost use Rattle.carte_journal.specs.Journals.{IsAtRest, IsReadAs, broke, calls_of, committed, needed_for, step_of};
ghost use Rattle.carte_bank.specs.Roots.{start_of};
ghost use Rattle.carte_bank.specs.Turns.{AreInFront};
ghost use Rattle.carte_journal.specs.Regions.{AreShort, IsPlannedOn, IsRegionOf, IsRewritable, bytes_of, calls_to_turn, needs_with, placed_at, region_end, region_of, rewritten, step_to, told_bank};

use crate::load::first_gate;
use crate::region::place;
use crate::rewrite::turn;
use crate::writes::append;
use crate::{Bank, Bodies, CommitFault, Frame, Region};
use carte_bank::Roots;
use carte_io::Disk;
use carte_value::NoMemory;
use std::alloc::Global;
use std::marker::Model;

/// Where the frames of a file end. It doesn't hold the disk: each call that takes one is meant for the disk that
/// the journal was loaded from, as its own calls left it.
#[derive(Drop)]
pub struct Journal {
    gate: u64,
    limit: u64,
    fresh: bool,
    broken: bool,
    bank: Option<Roots>,
    frames: u64,
}

impl Model for Journal {
    ghost use Rattle.std.specs.Prelude.{◌<◌, ◌≤◌, ◌^◌};
    ghost use Rattle.carte_bank.specs.Roots.{start_of};
    ghost use Rattle.carte_bank.specs.Turns.{AreInFront};
    ghost use Rattle.carte_journal.specs.Journals.{Standing};

    ghost Value = { Standing };

    ghost view = { λ j. record { gate = j.gate; limit = j.limit; fresh = j.fresh; broken = j.broken; bank = j.bank; frames = j.frames } };

    ghost invariant = { λ j. (j.gate < 2 ^ 32) × (j.limit < 2 ^ 32) × (j.frames ≤ j.gate) × (start_of j.bank ≤ j.gate) × AreInFront j.bank };
}

impl Journal {
    // That of a new file.
    pub(crate) fn new(limit: u64) -> Journal
        requires { limit < 2 ^ 32 }
        ensures { result ≡ record { gate = 8; limit = limit; fresh = true; broken = false; bank = None; frames = 0 } }
    {
        Journal {
            gate: 8,
            limit,
            fresh: true,
            broken: false,
            bank: None,
            frames: 0,
        }
    }

    // That of a file whose bank has so many frames and ends at a gate byte.
    pub(crate) fn at(limit: u64, bank: Option<Roots>, gate: u64, frames: usize) -> Journal
        requires gate { gate < 2 ^ 32 }
        requires limit { limit < 2 ^ 32 }
        requires frames { frames ≤ gate }
        requires start { start_of bank ≤ gate }
        requires roots { AreInFront bank }
        ensures { result ≡ record { gate = gate; limit = limit; fresh = false; broken = false; bank = bank; frames = frames } }
    {
        Journal {
            gate,
            limit,
            fresh: false,
            broken: false,
            bank,
            frames: frames as u64,
        }
    }

    /// Whether a commit of it met a fault of the disk. What the file holds is then not known, and it has to be
    /// loaded again.
    pub fn is_broken(&self) -> bool
        ensures { result ≡ self.now.broken }
    {
        self.broken
    }

    /// The most bytes that its file may have.
    pub fn limit(&self) -> u64
        ensures limit { result ≡ self.now.limit }
        ensures small { self.now.limit < 2 ^ 32 }
    {
        self.limit
    }

    /// The bank that has its frames.
    pub fn bank(&self) -> Bank
        ensures { result ≡ told_bank self.now }
    {
        Bank {
            start: first_gate(self.bank),
            end: self.gate + 1,
            frames: self.frames,
            generation: self.bank.map_or(0, |roots| roots.generation),
        }
    }

    /// The region of these bodies, for a rewriting before the next commit. Their offsets don't count. No call of a
    /// disk is made.
    pub fn plan(&self, alloc: Global, bodies: &Bodies) -> Result<Region, NoMemory>
        requires { AreShort (bytes_of bodies.now) }
        ensures planned { IfOk result (λ r. IsPlannedOn self.now r) }
        ensures region { IfOk result (λ r. IsRegionOf r (bytes_of bodies.now)) }
        ensures needs { IfOk result (λ r. region_end r ≡ needs_with self.now (length (region_of (bytes_of bodies.now)))) }
    {
        Region::of(alloc, self.gate, self.bank, bodies)
    }

    /// How many bytes the file needs with a region of this length, which needn't be planned yet.
    pub fn needed_with(&self, length: u64) -> u64
        requires { length < 2 ^ 63 }
        ensures { result ≡ needs_with self.now length }
    {
        place(self.gate, self.bank, length) + length
    }

    /// How many bytes the file needs with one more body of this length.
    pub fn needed(&self, length: usize) -> u64
        requires { length < 2 ^ 63 }
        ensures { result ≡ self.now.gate + 5 + length + 1 }
    {
        self.gate + 6 + length as u64
    }

    /// Adds a body. After Ok it stands in every later image of the file; at each moment before, an image has the
    /// bodies that were there, and this one whole or not at all. It makes 4 writing calls, or 6 as the first on a
    /// new file, and takes no memory.
    pub fn commit<D: Disk>(&mut self, disk: &mut D, frame: &Frame) -> Result<(), CommitFault>
        requires { self.old.broken ≡ false }

        // Where there is no room, no call of the disk is made.
        ensures full { self.old.limit < needed_for self.old frame.now
            → (result ≡ Err (CommitFault.Full (needed_for self.old frame.now) self.old.limit)) × (self.new ≡ self.old) × (disk.new ≡ disk.old) }
        ensures room { needed_for self.old frame.now ≤ self.old.limit → IsOkUnless result CommitFault.DiskFault }
        ensures cause { HasCauseOf CommitFault.DiskFault (D.faults disk.old) (D.faults disk.new) result }

        ensures place { OnOk result (self.new ≡ committed self.old frame.now) }
        ensures fault { result ≡ Err CommitFault.DiskFault → self.new ≡ broke self.old }
        ensures broken { IsTrue self.new.broken ↔ (result ≡ Err CommitFault.DiskFault) }

        ensures calls { D.tells → OnOk result ((D.story disk.new).now.passed ≡ (D.story disk.old).now.passed + calls_of self.old) }
        ensures fewer { D.tells → OnErr result (((D.story disk.old).now.passed ≤ (D.story disk.new).now.passed)
            × ((D.story disk.new).now.passed < (D.story disk.old).now.passed + calls_of self.old)) }

        ensures ok { D.tells → (bodies : List BodyAt) → IsAtRest self.old bodies (D.story disk.old)
            → OnOk result (IsAtRest self.new (bodies ++ (self.old.gate, frame.now) ∷ []) (D.story disk.new)) }
        ensures any_moment { D.tells → (bodies : List BodyAt) → IsAtRest self.old bodies (D.story disk.old)
            → StepsThrough (IsReadAs self.old.limit) (Ends self.old.gate bodies) (step_of self.old bodies frame.now ∷ []) (D.story disk.old) (D.story disk.new) }
    {
        let needed = self.needed(frame.len());
        if needed > self.limit {
            return Err(CommitFault::Full {
                needed,
                limit: self.limit,
            });
        }
        match append(disk, self.fresh, self.gate, frame) {
            Ok(()) => {
                self.gate = needed - 1;
                self.fresh = false;
                self.frames += 1;
                Ok(())
            }
            Err(_) => {
                self.broken = true;
                Err(CommitFault::DiskFault)
            }
        }
    }

    /// Writes a region over the list or the bank that has the frames, as a bank of its own. After Ok every later image of
    /// the file has the bodies of the region; at each moment before, an image has these or those that were there. It makes
    /// 4 writing calls as the first one of a file, and 5 or 7 as a later one, and takes no memory.
    pub fn rewrite<D: Disk>(&mut self, disk: &mut D, region: &Region) -> Result<(), CommitFault>
        requires whole { self.old.broken ≡ false }
        requires planned { IsPlannedOn self.old region.now }
        requires rewritable { IsRewritable self.old }

        // Where there is no room, no call of the disk is made.
        ensures full { self.old.limit < region_end region.now
            → (result ≡ Err (CommitFault.Full (region_end region.now) self.old.limit)) × (self.new ≡ self.old) × (disk.new ≡ disk.old) }
        ensures room { region_end region.now ≤ self.old.limit → IsOkUnless result CommitFault.DiskFault }
        ensures cause { HasCauseOf CommitFault.DiskFault (D.faults disk.old) (D.faults disk.new) result }

        ensures place { OnOk result (self.new ≡ rewritten self.old region.now) }
        ensures fault { result ≡ Err CommitFault.DiskFault → self.new ≡ broke self.old }
        ensures broken { IsTrue self.new.broken ↔ (result ≡ Err CommitFault.DiskFault) }

        ensures calls { D.tells → OnOk result ((D.story disk.new).now.passed ≡ (D.story disk.old).now.passed + calls_to_turn self.old.bank) }
        ensures fewer { D.tells → OnErr result (((D.story disk.old).now.passed ≤ (D.story disk.new).now.passed)
            × ((D.story disk.new).now.passed < (D.story disk.old).now.passed + calls_to_turn self.old.bank)) }

        ensures ok { D.tells → (bodies : List BodyAt) (new : List (List ℕ)) → IsAtRest self.old bodies (D.story disk.old) → IsRegionOf region.now new
            → OnOk result (IsAtRest self.new (placed_at region.now.at new) (D.story disk.new)) }
        ensures any_moment { D.tells → (bodies : List BodyAt) (new : List (List ℕ)) → IsAtRest self.old bodies (D.story disk.old) → IsRegionOf region.now new
            → StepsThrough (IsReadAs self.old.limit) (Ends self.old.gate bodies) (step_to region.now new ∷ []) (D.story disk.old) (D.story disk.new) }
    {
        let end = region.needed();
        if end > self.limit {
            return Err(CommitFault::Full {
                needed: end,
                limit: self.limit,
            });
        }
        let Ok(roots) = turn(disk, region) else {
            self.broken = true;
            return Err(CommitFault::DiskFault);
        };
        self.gate = end - 1;
        self.bank = Some(roots);
        self.frames = region.frames();
        Ok(())
    }
}
