ghost use Rattle.std.specs.Prelude.{◌≡◌, IfOk, OnOk, unwrap_or};
ghost use Rattle.carte_record_one.specs.Kept.{kept_one_view, nothing_kept_one};
ghost use Rattle.carte_record_one.specs.Folds.{apply_one, carried_one};
ghost use Rattle.carte_record_one.specs.Growth.{TakesKeys, TakesTraces};

use crate::{BatchOne, EntriesOne, StartOne, TracesOne};
use carte_table::{Seen, Store};
use carte_value::{Digest, Names, NoMemory, Seeded};
use std::alloc::Global;

/// What was kept from one build to the next, as version 1 has it.
#[derive(Drop)]
pub struct KeptOne {
    /// The digest of the rules that all of it is about; none where nothing was kept yet.
    pub rules: Option<Digest>,
    pub seen: Seen,
    pub entries: EntriesOne,
    pub verifying: TracesOne,
    pub constructive: TracesOne,
    pub deep: TracesOne,
    pub chain: Names,
    pub values: Store,
}

impl KeptOne {
    /// Nothing kept. What is put in later will come from `alloc`; this takes no memory.
    pub fn empty(alloc: Global, hasher: Seeded) -> KeptOne
        ensures { kept_one_view result ≡ nothing_kept_one }
    {
        KeptOne::under(alloc, None, hasher)
    }

    fn under(alloc: Global, rules: Option<Digest>, hasher: Seeded) -> KeptOne
        ensures { kept_one_view result ≡ record nothing_kept_one { rules = rules } }
    {
        KeptOne {
            rules,
            seen: Seen::new(alloc, hasher),
            entries: EntriesOne::new(alloc, hasher),
            verifying: TracesOne::new(alloc),
            constructive: TracesOne::new(alloc),
            deep: TracesOne::new(alloc),
            chain: Names::new(alloc),
            values: Store::new(alloc, hasher),
        }
    }

    /// With what a batch brings.
    pub fn with(self, batch: BatchOne) -> Result<KeptOne, NoMemory>
        ensures { IfOk result (λ new. kept_one_view new ≡ apply_one batch (kept_one_view self)) }
    {
        let rules = match batch.start {
            StartOne::GoOn => return carried(self, batch),
            StartOne::Anew(rules) => Some(rules),
            StartOne::Cleared => None,
        };
        let begun = KeptOne::under(self.seen.allocator(), rules, self.seen.hasher());
        carried(begun, batch)
    }

    fn carry(&mut self, batch: BatchOne) -> Result<(), NoMemory>
        ensures { OnOk result (kept_one_view self.new ≡ carried_one batch (kept_one_view self.old)) }
    {
        let BatchOne {
            values,
            seen,
            stale,
            entries,
            verifying,
            constructive,
            deep,
            chain,
            ..
        } = batch;
        self.take_keys(values, seen, &stale, entries)?;
        self.take_traces(verifying, constructive, deep)?;
        self.take_chain(chain);
        Ok(())
    }

    fn take_keys(
        &mut self,
        values: Store,
        seen: Seen,
        stale: &Names,
        entries: EntriesOne,
    ) -> Result<(), NoMemory>
        ensures { OnOk result (TakesKeys values seen stale.now entries self.old self.new) }
    {
        self.values.take_in(values)?;
        let links = self.seen.make_ready(seen)?;
        self.seen.take_in(links);
        self.entries.mark_each(stale, true);
        let entries = self.entries.make_ready(entries)?;
        self.entries.take_in(entries);
        Ok(())
    }

    fn take_traces(
        &mut self,
        verifying: TracesOne,
        constructive: TracesOne,
        deep: TracesOne,
    ) -> Result<(), NoMemory>
        ensures { OnOk result (TakesTraces verifying constructive deep self.old self.new) }
    {
        self.verifying.append(verifying)?;
        self.constructive.append(constructive)?;
        self.deep.append(deep)
    }

    fn take_chain(&mut self, chain: Option<Names>)
        ensures { self.new ≡ record self.old { chain = unwrap_or chain self.old.chain } }
    {
        if let Some(chain) = chain {
            self.chain = chain;
        }
    }
}

fn carried(kept: KeptOne, batch: BatchOne) -> Result<KeptOne, NoMemory>
    ensures { IfOk result (λ new. kept_one_view new ≡ carried_one batch (kept_one_view kept)) }
{
    let mut kept = kept;
    kept.carry(batch)?;
    Ok(kept)
}
