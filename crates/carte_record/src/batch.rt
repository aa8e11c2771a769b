ghost use Rattle.std.specs.Prelude.{◌≡◌, IfOk, true};
ghost use Rattle.carte_record.specs.Empty.{is_empty, brings_no_key, brings_no_trace, drops_nothing};

use crate::{DeepTrace, Entry, Seen, Start, Store, Trace, Way};
use carte_table::Plain;
use carte_value::{Names, NoMemory, Seeded};
use std::alloc::Global;

/// What a build changes of what is kept. Where it names a key twice, the later one counts. Entries and traces aren't looked up
/// in it, and have no tables.
#[derive(Drop)]
pub struct Batch {
    pub start: Start,
    pub values: Store,
    /// The names of which nothing is kept any more but what the batch brings.
    pub gone: Names,
    pub seen: Seen,
    pub entries: Plain<Entry>,
    /// The keys whose entries are marked stale, after the entries of the batch are put in.
    pub stale: Names,
    pub verifying: Plain<Trace>,
    pub constructive: Plain<Trace>,
    pub deep: Plain<DeepTrace>,
    pub chain: Option<Names>,
}

impl Batch {
    /// A batch that goes on and changes nothing. It takes no memory.
    pub fn new(alloc: Global, hasher: Seeded) -> Batch
        ensures { is_empty result ≡ true }
    {
        Batch {
            start: Start::GoOn,
            values: Store::new(alloc, hasher),
            gone: Names::new(alloc),
            seen: Seen::new(alloc, hasher),
            entries: Plain::new(alloc),
            stale: Names::new(alloc),
            verifying: Plain::new(alloc),
            constructive: Plain::new(alloc),
            deep: Plain::new(alloc),
            chain: None,
        }
    }

    /// Room for what so many finished keys bring at most, where there is memory for it: entries, and traces of a way where
    /// the rebuilder has one. Lists that grow as items come leave holes behind them, as large as they are.
    pub fn widen(&mut self, count: usize, way: Option<Way>)
        ensures { self.new ≡ self.old }
    {
        self.entries.widen(count);
        match way {
            Some(Way::Verifying) => self.verifying.widen(count),
            Some(Way::Constructive) => self.constructive.widen(count),
            Some(Way::Deep) => self.deep.widen(count),
            None => {}
        }
    }

    /// Whether it goes on and has nothing in it.
    pub fn is_empty(&self) -> bool
        ensures { result ≡ is_empty self.now }
    {
        self.start == Start::GoOn
            && self.chain.is_none()
            && self.brings_no_key()
            && self.brings_no_trace()
    }

    /// Whether it begins with all that is kept.
    pub(crate) fn drops_nothing(&self) -> bool
        ensures { result ≡ drops_nothing self.now }
    {
        self.start == Start::GoOn && self.gone.is_empty()
    }

    fn brings_no_key(&self) -> bool
        ensures { result ≡ brings_no_key self.now }
    {
        self.values.is_empty()
            && self.gone.is_empty()
            && self.seen.is_empty()
            && self.entries.is_empty()
            && self.stale.is_empty()
    }

    fn brings_no_trace(&self) -> bool
        ensures { result ≡ brings_no_trace self.now }
    {
        self.verifying.is_empty() && self.constructive.is_empty() && self.deep.is_empty()
    }

    /// A second, equal batch.
    pub fn copy(&self, alloc: Global) -> Result<Batch, NoMemory>
        ensures { IfOk result (λ copy. copy ≡ self.now) }
    {
        Ok(Batch {
            start: self.start,
            values: self.values.copy(alloc)?,
            gone: self.gone.copy(alloc)?,
            seen: self.seen.copy(alloc)?,
            entries: self.entries.copy(alloc)?,
            stale: self.stale.copy(alloc)?,
            verifying: self.verifying.copy(alloc)?,
            constructive: self.constructive.copy(alloc)?,
            deep: self.deep.copy(alloc)?,
            chain: self.copy_chain(alloc)?,
        })
    }

    fn copy_chain(&self, alloc: Global) -> Result<Option<Names>, NoMemory>
        ensures { IfOk result (λ copy. copy ≡ self.now.chain) }
    {
        match &self.chain {
            Some(chain) => Ok(Some(chain.copy(alloc)?)),
            None => Ok(None),
        }
    }
}
