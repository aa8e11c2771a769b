ghost use Rattle.std.specs.Prelude.{◌≡◌, ◌&&◌, ◌==◌, IfOk, length};
ghost use Rattle.carte_record.specs.Empty.{is_bare};
ghost use Rattle.carte_record.specs.Kept.{kept_view, nothing_kept};
ghost use Rattle.carte_record.specs.Folds.{with_marks, without};
ghost use Rattle.carte_record.specs.Marked.{CanBeMarked, lists_marked};
ghost use Rattle.carte_record.specs.declared.kept.Kept.{Kept as SomeLists};

use crate::{DeepTraces, Entries, Seen, Store, Traces};
use carte_table::{NameTable, name_table};
use carte_value::{Names, NoMemory, Seeded};
use std::alloc::Global;

/// What is kept from one build to the next.
#[derive(Drop)]
pub struct Kept {
    pub seen: Seen,
    pub entries: Entries,
    pub verifying: Traces,
    pub constructive: Traces,
    pub deep: DeepTraces,
    pub chain: Names,
    pub values: Store,
}

impl Kept {
    /// Nothing kept. What is put in later will come from `alloc`; this takes no memory.
    pub fn empty(alloc: Global, hasher: Seeded) -> Kept
        ensures { kept_view result ≡ nothing_kept }
    {
        Kept {
            seen: Seen::new(alloc, hasher),
            entries: Entries::new(alloc, hasher),
            verifying: Traces::new(alloc, hasher),
            constructive: Traces::new(alloc, hasher),
            deep: DeepTraces::new(alloc, hasher),
            chain: Names::new(alloc),
            values: Store::new(alloc, hasher),
        }
    }

    /// Whether nothing is kept.
    pub fn is_bare(&self) -> bool
        ensures { result ≡ is_bare self.now }
    {
        self.has_no_entry() && self.has_no_trace()
    }

    fn has_no_entry(&self) -> bool
        ensures { result ≡ (length self.now.chain == 0 && (length self.now.seen == 0 && length self.now.entries == 0)) }
    {
        self.chain.is_empty() && (self.seen.is_empty() && self.entries.is_empty())
    }

    fn has_no_trace(&self) -> bool
        ensures { result ≡ ((length self.now.verifying == 0 && length self.now.constructive == 0) && (length self.now.deep == 0 && length self.now.values == 0)) }
    {
        (self.verifying.is_empty() && self.constructive.is_empty())
            && (self.deep.is_empty() && self.values.is_empty())
    }

    /// What its tables are made with, and those of a batch for it can be.
    pub fn hasher(&self) -> Seeded {
        self.seen.hasher()
    }

    /// Marks the entries of these keys stale, where they stand. It takes no memory.
    pub fn mark(&mut self, keys: &Names)
        ensures view { kept_view self.new ≡ with_marks (kept_view self.old) keys.now }
        ensures lists { self.new ≡ lists_marked self.old keys.now }
    {
        self.entries.mark_each(keys, true);
    }

    /// Takes the marks off again, so that all is list for list what it was before these keys were marked. It takes no memory.
    pub fn unmark(&mut self, keys: &Names)
        ensures { (lists : SomeLists) → CanBeMarked lists keys.now → self.old ≡ lists_marked lists keys.now → self.new ≡ lists }
    {
        self.entries.mark_each(keys, false);
    }

    /// A second one, without all that is kept of these names.
    pub fn without(&self, alloc: Global, gone: &Names) -> Result<Kept, NoMemory>
        ensures { IfOk result (λ left. kept_view left ≡ without gone.now (kept_view self.now)) }
    {
        let gone = name_table(alloc, gone, self.hasher())?;
        self.without_these(alloc, &gone)
    }

    fn without_these(&self, alloc: Global, gone: &NameTable) -> Result<Kept, NoMemory>
        ensures { IfOk result (λ left. kept_view left ≡ without gone.now (kept_view self.now)) }
    {
        Ok(Kept {
            seen: self.seen.without(alloc, gone)?,
            entries: self.entries.without(alloc, gone)?,
            verifying: self.verifying.without(alloc, gone)?,
            constructive: self.constructive.without(alloc, gone)?,
            deep: self.deep.without(alloc, gone)?,
            chain: self.chain.copy(alloc)?,
            values: self.values.copy(alloc)?,
        })
    }

    /// A second, equal one.
    pub fn copy(&self, alloc: Global) -> Result<Kept, NoMemory>
        ensures { IfOk result (λ copy. copy ≡ self.now) }
    {
        Ok(Kept {
            seen: self.seen.copy(alloc)?,
            entries: self.entries.copy(alloc)?,
            verifying: self.verifying.copy(alloc)?,
            constructive: self.constructive.copy(alloc)?,
            deep: self.deep.copy(alloc)?,
            chain: self.chain.copy(alloc)?,
            values: self.values.copy(alloc)?,
        })
    }
}
