ghost use Rattle.std.specs.Prelude.{◌≡◌, IfOk, OnOk, OnErr, length};
ghost use Rattle.carte_record.specs.Kept.{kept_view};
ghost use Rattle.carte_record.specs.declared.kept.Kept.{Kept as SomeLists};
ghost use Rattle.carte_record.specs.Folds.{apply, started, without};
ghost use Rattle.carte_record.specs.Growth.{Grows, HasTraces, IsReadyIn, Settles, AreLengthsOf, put_in};

use crate::lengths::Lengths;
use crate::{Batch, DeepTrace, Entry, Kept, Seen, Start, Store, Trace};
use carte_table::Plain;
use carte_value::{Link, Names, NoMemory};

impl Kept {
    /// Takes in what a batch brings, in a copy.
    pub fn apply(&mut self, batch: &Batch) -> Result<(), NoMemory>
        ensures ok { OnOk result (kept_view self.new ≡ apply batch.now (kept_view self.old)) }
        ensures no_memory { OnErr result (self.new ≡ self.old) }
    {
        let batch = batch.copy(self.seen.allocator())?;
        self.absorb(batch)
    }

    /// Takes in what a batch brings, so that no value is held twice. What is kept is copied only where something is dropped.
    pub fn absorb(&mut self, batch: Batch) -> Result<(), NoMemory>
        ensures ok { OnOk result (kept_view self.new ≡ apply batch (kept_view self.old)) }
        ensures no_memory { OnErr result (self.new ≡ self.old) }
    {
        if batch.drops_nothing() {
            return self.carry(batch);
        }
        let mut left = self.left_by(&batch)?;
        left.carry(batch)?;
        *self = left;
        Ok(())
    }

    // What a batch begins with, without what it drops.
    fn left_by(&self, batch: &Batch) -> Result<Kept, NoMemory>
        ensures { IfOk result (λ left. kept_view left ≡ without batch.now.gone (started batch.now.start (kept_view self.now))) }
    {
        let alloc = self.seen.allocator();
        match batch.start {
            Start::GoOn => self.without(alloc, &batch.gone),
            Start::Cleared => Ok(Kept::empty(alloc, self.hasher())),
        }
    }

    // All that it brings. What it drops is dropped before.
    fn carry(&mut self, batch: Batch) -> Result<(), NoMemory>
        ensures ok { OnOk result (kept_view self.new ≡ put_in batch (kept_view self.old)) }
        ensures no_memory { OnErr result (self.new ≡ self.old) }
    {
        let Batch {
            values,
            seen,
            entries,
            stale,
            verifying,
            constructive,
            deep,
            chain,
            ..
        } = batch;
        let lengths = self.lengths();
        match self.grow(values, verifying, constructive, deep, seen, entries) {
            Ok((links, entries)) => {
                self.settle(links, entries, &stale, chain);
                Ok(())
            }
            Err(refused) => {
                self.shrink(lengths);
                Err(refused)
            }
        }
    }

    fn lengths(&self) -> Lengths
        ensures { AreLengthsOf self.now result }
    {
        Lengths {
            seen: self.seen.len(),
            entries: self.entries.len(),
            verifying: self.verifying.len(),
            constructive: self.constructive.len(),
            deep: self.deep.len(),
            values: self.values.len(),
        }
    }

    // All that can fail: the lists get what they lack, behind what they have. The links and entries that are left replace
    // others.
    fn grow(
        &mut self,
        values: Store,
        verifying: Plain<Trace>,
        constructive: Plain<Trace>,
        deep: Plain<DeepTrace>,
        seen: Seen,
        entries: Plain<Entry>,
    ) -> Result<(Vec<Link>, Vec<Entry>), NoMemory>
        ensures front { Grows self.old self.new }
        ensures traces { OnOk result (HasTraces verifying constructive deep self.old self.new) }
        ensures rest { IfOk result (λ left. IsReadyIn values seen entries left.0.items left.1.items self.old self.new) }
    {
        self.grow_traces(verifying, constructive, deep)?;
        self.values.take_in(values)?;
        let links = self.seen.make_ready(seen)?;
        let entries = self.entries.make_ready(entries)?;
        Ok((links, entries))
    }

    fn grow_traces(
        &mut self,
        verifying: Plain<Trace>,
        constructive: Plain<Trace>,
        deep: Plain<DeepTrace>,
    ) -> Result<(), NoMemory>
        ensures front { Grows self.old self.new }
        ensures traces { OnOk result (HasTraces verifying constructive deep self.old self.new) }
        ensures rest { (self.new.values ≡ self.old.values) × (self.new.seen ≡ self.old.seen) × (self.new.entries ≡ self.old.entries) }
    {
        self.verifying.append(verifying)?;
        self.constructive.append(constructive)?;
        self.deep.append(deep)
    }

    fn shrink(&mut self, lengths: Lengths)
        ensures { (old : SomeLists) → Grows old self.old → AreLengthsOf old lengths → self.new ≡ old }
    {
        self.seen.truncate(lengths.seen);
        self.entries.truncate(lengths.entries);
        self.verifying.truncate(lengths.verifying);
        self.constructive.truncate(lengths.constructive);
        self.deep.truncate(lengths.deep);
        self.values.truncate(lengths.values);
    }

    // None of this can fail.
    fn settle(&mut self, links: Vec<Link>, entries: Vec<Entry>, stale: &Names, chain: Option<Names>)
        ensures { Settles links.items entries.items stale.now chain self.old self.new }
    {
        self.seen.take_in(links);
        self.entries.take_in(entries, stale);
        if let Some(chain) = chain {
            self.chain = chain;
        }
    }
}
