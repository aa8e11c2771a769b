ghost use Rattle.std.specs.Prelude.{◌≡◌, ℕ, [], false, IsTrue, ◌↔◌, ◌<◌, OnOk, length};
ghost use Rattle.carte_wave.specs.Front.{line_of, AddsReady, AddsFirst, AddsEach, Waits, Wakes, IsTaken, IsNoLine};

use carte_value::{Name, Names, NoMemory, Seeded};
use std::alloc::Global;
use std::collections::{BTreeSet, HashMap, VecDeque};
use std::mem;

/// The keys that can go on, and of each rule without a value the keys that wait for it.
#[derive(Drop)]
pub(crate) struct Front {
    pub(crate) ready: BTreeSet<Name>,
    pub(crate) waits: HashMap<Name, Names, Seeded>,
}

impl Front {
    /// It takes no memory.
    pub(crate) fn new(alloc: Global, hasher: Seeded) -> Front
        ensures { IsNoLine (line_of result) }
    {
        Front {
            ready: BTreeSet::new(alloc),
            waits: HashMap::with_hasher(alloc, hasher),
        }
    }

    /// Whether a key can go on.
    pub(crate) fn goes_on(&self) -> bool
        ensures { IsTrue result ↔ (0 < length self.now.ready.keys) }
    {
        !self.ready.is_empty()
    }

    /// Takes the keys that can go on, in name order.
    pub(crate) fn take(&mut self, alloc: Global) -> BTreeSet<Name>
        ensures { IsTaken (line_of self.old) (line_of self.new) result }
    {
        mem::replace(&mut self.ready, BTreeSet::new(alloc))
    }

    /// One key more can go on.
    pub(crate) fn add(&mut self, key: Name) -> Result<(), NoMemory>
        ensures { OnOk result (AddsReady key (line_of self.old) (line_of self.new)) }
    {
        self.ready.insert(key)?;
        Ok(())
    }

    /// So can the first of a path, where it has one.
    pub(crate) fn add_first(&mut self, mut path: VecDeque<Name>) -> Result<(), NoMemory>
        ensures { OnOk result (AddsFirst path.items (line_of self.old) (line_of self.new)) }
    {
        match path.pop_front() {
            Some(key) => self.add(key),
            None => Ok(()),
        }
    }

    /// A key waits for this rule.
    pub(crate) fn wait(&mut self, alloc: Global, name: &Name, key: Name) -> Result<(), NoMemory>
        ensures { OnOk result (Waits name.now key (line_of self.old) (line_of self.new)) }
    {
        if let Some(keys) = self.waits.get_mut(name) {
            return keys.push(key);
        }
        let mut keys = Names::new(alloc);
        keys.push(key)?;
        let name = name.copy(alloc)?;
        match self.waits.insert(name, keys) {
            Ok(_) => Ok(()),
            Err(_) => Err(NoMemory),
        }
    }

    /// All that wait for this rule can go on.
    pub(crate) fn wake(&mut self, alloc: Global, name: &Name) -> Result<(), NoMemory>
        ensures { OnOk result (Wakes name.now (line_of self.old) (line_of self.new)) }
    {
        match self.waits.get(name) {
            Some(keys) => add_each(alloc, &mut self.ready, keys.as_slice()),
            None => Ok(()),
        }
    }
}

fn add_each(alloc: Global, ready: &mut BTreeSet<Name>, keys: &[Name]) -> Result<(), NoMemory>
    ensures { OnOk result (AddsEach keys.now ready.old ready.new) }
{
    for key in keys {
        ready.insert(key.copy(alloc)?)?;
    }
    Ok(())
}
