ghost use Rattle.std.specs.Prelude.{◌≡◌, ◌≢◌, ◌+◌, ◌<◌, ◌≤◌, ◌^◌, ℕ, false, true, is_some, length, None, option_copied, IfOk, IfSome, IsOkUnless, OnOk, OnErr, Ok, Err};
ghost use Rattle.carte_codec.specs.Each.{EachFits};
ghost use Rattle.carte_state.specs.Around.{over_disk};
ghost use Rattle.carte_record.specs.Bodies.{IsBody, IsUnmarked, spelled_batch, spelled_deep, spelled_trace};
ghost use Rattle.carte_record.specs.Folds.{apply, with_marks};
ghost use Rattle.carte_record.specs.Kept.{kept_view, nothing_kept};
ghost use Rattle.carte_record.specs.Lookups.{deep_eq, trace_eq};
ghost use Rattle.carte_record.specs.Marked.{CanBeMarked, lists_marked};
ghost use Rattle.carte_state.specs.Applying.{Applies};
ghost use Rattle.carte_state.specs.Folding.{Keeps};
ghost use Rattle.carte_state.specs.Writing.{FitInTurn, Writes};
ghost use Rattle.carte_state.specs.Rewriting.{IsRegionFor, step_over, with_journal};
ghost use Rattle.carte_state.specs.Parts.{made_view};
ghost use Rattle.carte_state.specs.Versions.{Begins, kept_of};
ghost use Rattle.carte_state.specs.States.{IsKeptOn, Stand as SomeStand, any_in, kept_in, needs_for};
ghost use Rattle.carte_table.specs.Latest.{latest_length};
ghost use Rattle.carte_io.specs.Causes.{HasCauseOf};
ghost use Rattle.carte_io.specs.Stations.{StepsThrough};
ghost use Rattle.carte_journal.specs.Journals.{broke};
ghost use Rattle.carte_journal.specs.Regions.{AreShort, IsPlannedOn, IsRegionOf, IsRewritable, bytes_of, calls_to_turn, needs_with, region_end, region_of, rewritten, told_bank};

use crate::ApplyFault;
use crate::made::Made;
use crate::room::{Sizes, widen};
use carte_codec::Measured;
use carte_io::Disk;
use carte_journal::{Bank, Bodies, CommitFault, Frame, Journal, Region};
use carte_record::{Batch, Kept};
use carte_record_one::KeptOne;
use carte_value::{Digest, Names, NoMemory, Seeded, Value};
use std::alloc::Global;
use std::marker::Model;
use std::mem::replace;

/// What a file keeps. It doesn't hold the disk: each call that takes one is meant for the disk that the state was loaded
/// from, as its own calls left it.
#[derive(Drop)]
pub struct State {
    journal: Journal,
    kept: Kept,
    one: Option<KeptOne>,
}

impl Model for State {
    ghost use Rattle.carte_state.specs.States.{Stand};

    ghost Value = { Stand };

    ghost view = { λ s. record { journal = s.journal; kept = s.kept; one = s.one } };
}

impl State {
    /// The state that is read so.
    pub(crate) fn of(alloc: Global, journal: Journal, made: Made, hasher: Seeded) -> State
        ensures journal { result.journal ≡ journal }
        ensures any { any_in result ≡ kept_of (made_view made) }
        ensures bare { is_some result.one ≡ true → kept_in result ≡ nothing_kept }
    {
        match made {
            Made::Nothing => State::of_two(journal, Kept::empty(alloc, hasher)),
            Made::Old(old) => State {
                journal,
                kept: Kept::empty(alloc, hasher),
                one: Some(old),
            },
            Made::Before(kept) => State::of_two(journal, kept),
            Made::Now(kept) => State::of_two(journal, kept),
        }
    }

    fn of_two(journal: Journal, kept: Kept) -> State
        ensures { result ≡ record { journal = journal; kept = kept; one = None } }
    {
        State {
            journal,
            kept,
            one: None,
        }
    }

    /// Whether what is kept is of version 1.
    pub fn is_old(&self) -> bool
        ensures { result ≡ is_some self.now.one }
    {
        self.one.is_some()
    }

    /// What is kept in version 1, where the bodies of the file are of that version and there is one at least. Then nothing
    /// is kept of version 2 until a batch is applied, which has to begin cleared.
    pub fn old(&self) -> Option<&KeptOne>
        ensures { option_copied result ≡ self.now.one }
    {
        self.one.as_ref()
    }

    /// What is kept.
    pub fn kept(&self) -> &Kept
        ensures { result.now ≡ self.now.kept }
    {
        &self.kept
    }

    /// Marks the entries of these keys in what is kept, where they stand, until `unmark` takes the marks off. The file
    /// doesn't know of them. It takes no memory.
    pub fn mark(&mut self, keys: &Names)
        ensures view { kept_in self.new ≡ with_marks (kept_in self.old) keys.now }
        ensures lists { self.new ≡ record self.old { kept = lists_marked self.old.kept keys.now } }
    {
        self.kept.mark(keys);
    }

    /// Takes the marks off again, so that all is list for list what it was before these keys were marked. It takes no memory.
    pub fn unmark(&mut self, keys: &Names)
        ensures { (before : SomeStand) → CanBeMarked before.kept keys.now → self.old ≡ record before { kept = lists_marked before.kept keys.now }
            → self.new ≡ before }
    {
        self.kept.unmark(keys);
    }

    /// Has the lists of traces know in how many bytes those are spelled at least of which no equal one comes later. What is
    /// kept stays as it is.
    pub fn learn_lengths(&mut self, verifying: u64, constructive: u64, deep: u64)
        requires verifying { verifying ≤ latest_length trace_eq spelled_trace self.old.kept.verifying }
        requires constructive { constructive ≤ latest_length trace_eq spelled_trace self.old.kept.constructive }
        requires deep { deep ≤ latest_length deep_eq spelled_deep self.old.kept.deep }
        ensures { self.new ≡ self.old }
    {
        self.kept.verifying.learn_length(verifying);
        self.kept.constructive.learn_length(constructive);
        self.kept.deep.learn_length(deep);
    }

    /// The value of a digest that is kept, where there is one: of several the first. It takes no memory.
    pub fn value_of(&self, digest: &Digest) -> Option<&Value>
        ensures { option_copied result ≡ (kept_in self.now).stored digest.now }
    {
        self.kept.values.find(digest)
    }

    /// Whether applying a batch met a fault of the disk. What the file keeps is then not known, and it has to be loaded
    /// again.
    pub fn is_broken(&self) -> bool
        ensures { result ≡ self.now.journal.broken }
    {
        self.journal.is_broken()
    }

    /// The bank of its journal.
    pub fn bank(&self) -> Bank
        ensures { result ≡ told_bank self.now.journal }
    {
        self.journal.bank()
    }

    /// The most bytes that its file may have.
    pub fn limit(&self) -> u64
        ensures { result ≡ self.now.journal.limit }
    {
        self.journal.limit()
    }

    /// How many bytes the file needs with a region of this length, which needn't be planned yet.
    pub fn needed_with(&self, length: u64) -> u64
        requires { length < 2 ^ 63 }
        ensures { result ≡ needs_with self.now.journal length }
    {
        self.journal.needed_with(length)
    }

    /// The region of these bodies, for a rewriting before the next batch is applied. No call of a disk is made.
    pub fn plan(&self, alloc: Global, bodies: &Bodies) -> Result<Region, NoMemory>
        requires { AreShort (bytes_of bodies.now) }
        ensures planned { IfOk result (λ r. IsPlannedOn self.now.journal r) }
        ensures region { IfOk result (λ r. IsRegionOf r (bytes_of bodies.now)) }
        ensures needs { IfOk result (λ r. region_end r ≡ needs_with self.now.journal (length (region_of (bytes_of bodies.now)))) }
    {
        self.journal.plan(alloc, bodies)
    }

    /// Writes a region, whose bodies make what is kept, in the place of all bodies. At each moment an image of the file
    /// keeps what is kept. It makes 4 writing calls as the first one of a file, and 5 or 7 as a later one, and takes no
    /// memory.
    pub fn rewrite<D: Disk>(&mut self, disk: &mut D, region: &Region) -> Result<(), CommitFault>
        requires whole { self.old.journal.broken ≡ false }
        requires planned { IsPlannedOn self.old.journal region.now }
        requires rewritable { IsRewritable self.old.journal }
        requires alike { IsRegionFor (kept_in self.old) region.now }
        requires new { self.old.one ≡ None }

        // Where there is no room, no call of the disk is made.
        ensures full { self.old.journal.limit < region_end region.now
            → (result ≡ Err (CommitFault.Full (region_end region.now) self.old.journal.limit)) × (self.new ≡ self.old) × (disk.new ≡ disk.old) }
        ensures room { region_end region.now ≤ self.old.journal.limit → IsOkUnless result CommitFault.DiskFault }
        ensures cause { HasCauseOf CommitFault.DiskFault (D.faults disk.old) (D.faults disk.new) result }

        ensures place { OnOk result (self.new ≡ with_journal self.old (rewritten self.old.journal region.now)) }
        ensures fault { result ≡ Err CommitFault.DiskFault → self.new ≡ with_journal self.old (broke self.old.journal) }

        ensures calls { D.tells → OnOk result ((D.story disk.new).now.passed ≡ (D.story disk.old).now.passed + calls_to_turn self.old.journal.bank) }
        ensures fewer { D.tells → OnErr result (((D.story disk.old).now.passed ≤ (D.story disk.new).now.passed)
            × ((D.story disk.new).now.passed < (D.story disk.old).now.passed + calls_to_turn self.old.journal.bank)) }

        ensures rest { D.tells → IsKeptOn self.old (D.story disk.old) → OnOk result (IsKeptOn self.new (D.story disk.new)) }
        ensures steps { D.tells → IsKeptOn self.old (D.story disk.old)
            → StepsThrough (Keeps self.old.journal.limit) (any_in self.old) (step_over region.now (any_in self.old)) (D.story disk.old) (D.story disk.new) }
    {
        self.journal.rewrite(disk, region)
    }

    /// Makes room at once for what batches bring that are about to be applied, where there is memory for it.
    pub fn make_room(&mut self, batches: &[Batch])
        ensures { self.new ≡ self.old }
    {
        widen(&mut self.kept, Sizes::of_all(batches));
    }

    /// Puts a batch into what is kept, on the disk and here. After Ok every later image of the file keeps it; at each
    /// moment before, an image keeps what was kept before it or after it. An empty batch makes no call of the disk, and
    /// another 4 writing calls, or 6 as the first on a new file. The batch goes into what is kept as it is, and where it is
    /// refused it is dropped. A state of version 1 takes one that begins cleared, and is then of version 2.
    pub fn apply<D: Disk>(
        &mut self,
        alloc: Global,
        disk: &mut D,
        mut batch: Batch,
    ) -> Result<(), ApplyFault>
        requires whole { self.old.journal.broken ≡ false }
        requires unmarked { EachFits IsUnmarked batch.entries }
        requires begins { Begins (any_in self.old) batch }

        ensures { Applies (over_disk D.tells D.story D.faults disk.old disk.new) self.old self.new batch result }
    {
        self.put(alloc, disk, &mut batch)
    }

    // The same of a batch in its place, out of which it is taken: so there is one place where it is dropped.
    fn put<D: Disk>(
        &mut self,
        alloc: Global,
        disk: &mut D,
        batch: &mut Batch,
    ) -> Result<(), ApplyFault>
        requires whole { self.old.journal.broken ≡ false }
        requires unmarked { EachFits IsUnmarked batch.old.entries }
        requires begins { Begins (any_in self.old) batch.old }

        ensures { Applies (over_disk D.tells D.story D.faults disk.old disk.new) self.old self.new batch.old result }
    {
        if batch.is_empty() {
            return Ok(());
        }
        let frame = self.frame_of(alloc, batch)?;
        take_in(&mut self.kept, alloc, batch)?;
        self.one = None;
        match self.journal.commit(disk, &frame) {
            Ok(()) => Ok(()),
            Err(fault) => Err(ApplyFault::of(fault)),
        }
    }

    /// Whether there is room for all of these batches, one behind another, in the file as it stands.
    pub fn has_room_for(&self, batches: &[Batch]) -> bool
        ensures { result ≡ true → FitInTurn self.now.journal batches.now }
    {
        let limit = self.limit();
        let mut end = self.bank().end;
        for batch in batches {
            match end_behind(end, batch, limit) {
                Some(behind) => end = behind,
                None => return false,
            }
        }
        true
    }

    /// Puts a batch on the disk alone, as `apply` does. What is kept here stays as it is, so it isn't what the file keeps any
    /// more: whoever writes one batch so writes all that come, and then lets the state go. It spares a process that ends
    /// the memory and the work of putting in what nothing will ask for.
    pub fn write<D: Disk>(
        &mut self,
        alloc: Global,
        disk: &mut D,
        next: &Batch,
    ) -> Result<(), ApplyFault>
        requires whole { self.old.journal.broken ≡ false }
        requires unmarked { EachFits IsUnmarked next.now.entries }

        ensures writes { Writes (over_disk D.tells D.story D.faults disk.old disk.new) self.old.journal self.new.journal next.now result }
        ensures kept { self.new ≡ with_journal self.old self.new.journal }
    {
        if next.is_empty() {
            return Ok(());
        }
        let spelled = self.frame_of(alloc, next)?;
        match self.journal.commit(disk, &spelled) {
            Ok(()) => Ok(()),
            Err(refused) => Err(ApplyFault::of(refused)),
        }
    }

    // The frame of a batch, where there is room for it.
    #[tactic(auto, using(crate::proofs::Applies::no_move))]
    fn frame_of(&self, alloc: Global, batch: &Batch) -> Result<Frame, ApplyFault>
        requires { EachFits IsUnmarked batch.now.entries }
        ensures frame { IfOk result (λ frame. frame ≡ spelled_batch batch.now) }
        ensures fits { IfOk result (λ frame. IsBody batch.now frame) }
        ensures room { OnOk result (needs_for self.now batch.now ≤ self.now.journal.limit) }
        ensures full { (needed limit : ℕ) → result ≡ Err (ApplyFault.Full needed limit)
            → (needed ≡ needs_for self.now batch.now) × (limit ≡ self.now.journal.limit) × (limit < needed) }
        ensures disk { result ≢ Err ApplyFault.DiskFault }
    {
        let bytes = batch.encode(alloc)?;
        let needed = self.journal.needed(bytes.len());
        let limit = self.journal.limit();
        if needed > limit {
            return Err(ApplyFault::Full { needed, limit });
        }
        let frame = Frame::made(bytes)?;
        Ok(frame)
    }
}

// Takes a batch out of its place, and into what is kept.
fn take_in(kept: &mut Kept, alloc: Global, batch: &mut Batch) -> Result<(), NoMemory>
    ensures ok { OnOk result (kept_view kept.new ≡ apply batch.old (kept_view kept.old)) }
    ensures no_memory { OnErr result (kept.new ≡ kept.old) }
{
    let nothing = Batch::new(alloc, kept.hasher());
    kept.absorb(replace(batch, nothing))
}

// Where a file that ends so would end behind one batch more, where it may be so long.
fn end_behind(end: u64, batch: &Batch, limit: u64) -> Option<u64>
    ensures { IfSome result (λ behind. (behind ≡ end + (5 + length (spelled_batch batch.now))) × (behind ≤ limit)) }
{
    let behind = end.checked_add(5)?.checked_add(batch.length()?)?;
    if behind > limit {
        return None;
    }
    Some(behind)
}
