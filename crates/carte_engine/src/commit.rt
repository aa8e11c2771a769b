// Commits, before which the file is rewritten where that is due.
ghost use Rattle.std.specs.Prelude.{◌≡◌, ◌∷◌, [], true, false, MatchResult, OnOk};
ghost use Rattle.carte_codec.specs.Each.{EachFits};
ghost use Rattle.carte_record.specs.Bodies.{IsUnmarked};
ghost use Rattle.carte_record.specs.Kept.{nothing_kept};
ghost use Rattle.carte_state.specs.Around.{over_disk};
ghost use Rattle.carte_state.specs.Runs.{AreUnmarked, BeginAll};
ghost use Rattle.carte_state.specs.States.{any_in};
ghost use Rattle.carte_state.specs.Versions.{Begins, InTwo};
ghost use Rattle.carte_engine.specs.Clearing.{clearing};
ghost use Rattle.carte_engine.specs.Committing.{Commits, CommitsAll, IsNotDue, Readies, Unreadied};
ghost use Rattle.carte_engine.specs.Writing.{CommitsLast, MayWrite};

use crate::Engine;
use crate::clear::clearing;
use carte_compact::{is_due, rewrite};
use carte_io::Disk;
use carte_record::Batch;
use carte_state::ApplyFault;
use std::alloc::Global;
use std::mem::forget;

impl Engine {
    /// Commits the batches of a plan, one after another, up to the first that is refused: that one and those behind it are
    /// dropped. Each is put as `State::apply` does: in one step, whole or not at all, whatever crash comes. Before the
    /// first one the file is rewritten with what is live, where that is possible and the file is large beside it or has no
    /// room for the batch; before a later one only where it has no room. So a state doesn't grow without end, and is full
    /// only where a rewriting doesn't help. An empty batch makes no call. A rewriting that was made stands, and keeps the
    /// same. What is kept of version 1 isn't rewritten, and the first batch has to clear it, as that of a plan does.
    pub fn commit<D: Disk>(
        &mut self,
        alloc: Global,
        disk: &mut D,
        batches: Vec<Batch>,
    ) -> Result<(), ApplyFault>
        requires whole { self.old.journal.broken ≡ false }
        requires unmarked { AreUnmarked batches.items }
        requires begins { BeginAll (any_in self.old) batches.items }
        ensures { CommitsAll (over_disk D.tells D.story D.faults disk.old disk.new) self.old self.new batches.items result }
    {
        self.state.make_room(batches.as_slice());
        self.commit_each(alloc, disk, batches)
    }

    fn commit_each<D: Disk>(
        &mut self,
        alloc: Global,
        disk: &mut D,
        batches: Vec<Batch>,
    ) -> Result<(), ApplyFault>
        requires whole { self.old.journal.broken ≡ false }
        requires unmarked { AreUnmarked batches.items }
        requires begins { BeginAll (any_in self.old) batches.items }
        ensures { CommitsAll (over_disk D.tells D.story D.faults disk.old disk.new) self.old self.new batches.items result }
    {
        let mut first = true;
        for batch in batches {
            self.commit_one(alloc, disk, batch, first)?;
            first = false;
        }
        Ok(())
    }

    /// The same as the last thing that is done with the engine: nothing is told of what it has behind this, so that no
    /// further commit can be made. Where no rewriting is due and there is room for all of the batches, they are only
    /// written, and what they make of what is kept isn't put together in memory, where nothing asks for it any more. That
    /// spares a build from nothing a seventh of its memory.
    pub fn commit_last<D: Disk>(
        &mut self,
        alloc: Global,
        disk: &mut D,
        batches: Vec<Batch>,
    ) -> Result<(), ApplyFault>
        requires whole { self.old.journal.broken ≡ false }
        requires unmarked { AreUnmarked batches.items }
        requires begins { BeginAll (any_in self.old) batches.items }
        ensures { CommitsLast (over_disk D.tells D.story D.faults disk.old disk.new) self.old batches.items result }
    {
        if !self.may_write(alloc, batches.as_slice()) {
            return self.commit(alloc, disk, batches);
        }
        let result = self.write_each(alloc, disk, batches.as_slice());
        // To give them back, name by name, would only take time.
        forget(batches);
        result
    }

    // Whether no batch needs what is kept in memory: none but the first could be rewritten for, and for that it isn't due.
    fn may_write(&mut self, alloc: Global, batches: &[Batch]) -> bool
        ensures may { result ≡ true → MayWrite self.old batches.now }
        ensures same { self.new ≡ self.old }
    {
        if self.state.is_old() || !self.state.has_room_for(batches) {
            return false;
        }
        match batches.first() {
            Some(first) => self.is_undue(alloc, first),
            None => true,
        }
    }

    fn is_undue(&mut self, alloc: Global, first: &Batch) -> bool
        ensures undue { result ≡ true → IsNotDue true self.old first.now }
        ensures same { self.new ≡ self.old }
    {
        match is_due(alloc, &mut self.state, first, true) {
            Ok(due) => !due,
            Err(_) => false,
        }
    }

    fn write_each<D: Disk>(
        &mut self,
        alloc: Global,
        disk: &mut D,
        batches: &[Batch],
    ) -> Result<(), ApplyFault>
        requires whole { self.old.journal.broken ≡ false }
        requires unmarked { AreUnmarked batches.now }
        requires may { MayWrite self.old batches.now }
        ensures { CommitsLast (over_disk D.tells D.story D.faults disk.old disk.new) self.old batches.now result }
    {
        for next in batches {
            self.state.write(alloc, disk, next)?;
        }
        Ok(())
    }

    /// Empties the state: commits a batch that clears it, or nothing where nothing is kept. A state of version 1 becomes one
    /// of version 2 by it.
    pub fn clean<D: Disk>(&mut self, alloc: Global, disk: &mut D) -> Result<(), ApplyFault>
        requires whole { self.old.journal.broken ≡ false }
        ensures cleaned { OnOk result (any_in self.new ≡ InTwo nothing_kept) }
        ensures commits { CommitsAll (over_disk D.tells D.story D.faults disk.old disk.new) self.old self.new (clearing self.old ∷ []) result }
    {
        let batch = clearing(alloc, &self.state);
        self.commit_one(alloc, disk, batch, true)
    }

    // The first batch of a build, or a later one.
    fn commit_one<D: Disk>(
        &mut self,
        alloc: Global,
        disk: &mut D,
        batch: Batch,
        first: bool,
    ) -> Result<(), ApplyFault>
        requires whole { self.old.journal.broken ≡ false }
        requires unmarked { EachFits IsUnmarked batch.entries }
        requires begins { Begins (any_in self.old) batch }
        ensures { Commits first (over_disk D.tells D.story D.faults disk.old disk.new) self.old self.new batch result }
    {
        self.make_ready(alloc, disk, &batch, first)?;
        self.state.apply(alloc, disk, batch)
    }

    // Rewrites the file, where that is due before this batch. It isn't where what is kept is of version 1.
    fn make_ready<D: Disk>(
        &mut self,
        alloc: Global,
        disk: &mut D,
        batch: &Batch,
        first: bool,
    ) -> Result<(), ApplyFault>
        requires whole { self.old.journal.broken ≡ false }
        ensures ready { MatchResult result
            (λ _. Readies first (over_disk D.tells D.story D.faults disk.old disk.new) self.old batch.now self.new)
            (λ fault. Unreadied first (over_disk D.tells D.story D.faults disk.old disk.new) self.old self.new batch.now fault) }
        ensures whole { OnOk result (self.new.journal.broken ≡ false) }
    {
        if self.state.is_old() {
            return Ok(());
        }
        if !is_due(alloc, &mut self.state, batch, first)? {
            return Ok(());
        }
        rewrite(alloc, &mut self.state, disk)
    }
}
