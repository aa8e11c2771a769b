ghost use Rattle.std.specs.Prelude.{◌≡◌, ◌<◌, ◌^◌, [], ◌==◌, length, slice_get, option_copied, Some, IfOk, IfSome, OnOk, OnErr};
ghost use Rattle.carte_value.specs.Firsts.{seen_also};
ghost use Rattle.carte_value.specs.Numbers.{number_of};
ghost use Rattle.std.specs.List.{IsDistinct};
ghost use Rattle.carte_name.specs.Names.{name_eq};

use crate::{LIST_LIMIT, Name, Names, NoMemory, Seeded};
use indexmap::IndexSet;
use std::alloc::Global;
use std::marker::Model;

/// Names with numbers: the number of a name is its place among them, counted from 0, and it keeps it. There are at most
/// 2^32 - 1. Seen as the list of the names, in which none stands twice.
#[derive(Drop)]
pub struct Numbering {
    alloc: Global,
    names: IndexSet<Name, Seeded>,
}

impl Model for Numbering {
    ghost use Rattle.std.specs.Prelude.{ℕ, ◌<◌, ◌^◌, List, length};

    ghost Value = { List (List ℕ) };

    ghost view = { λ n. n.names.keys };

    ghost invariant = { λ n. length n.names.keys < 2 ^ 32 };
}

impl Numbering {
    /// No names. Those that come will be copied from `alloc` and hashed by `hasher`. It takes no memory.
    pub fn new(alloc: Global, hasher: Seeded) -> Numbering
        ensures { result ≡ [] }
    {
        Numbering {
            alloc,
            names: IndexSet::with_hasher(alloc, hasher),
        }
    }

    /// What its names are hashed by.
    pub fn hasher(&self) -> Seeded {
        *self.names.hasher()
    }

    /// How many names there are.
    pub fn len(&self) -> usize
        ensures number { result ≡ length self.now }
        ensures bound { result < 2 ^ 32 }
    {
        self.names.len()
    }

    pub fn is_empty(&self) -> bool
        ensures { result ≡ (length self.now == 0) }
    {
        self.names.len() == 0
    }

    /// The number of a name, and none exactly where it has none. It takes no memory.
    pub fn find(&self, name: &Name) -> Option<u32>
        ensures number { result ≡ number_of self.now name.now }
        ensures there { IfSome result (λ at. slice_get self.now at ≡ Some name.now) }
    {
        match self.names.get_index_of(name) {
            Some(at) => Some(at as u32),
            None => None,
        }
    }

    /// The name that has a number, and none exactly where none has it. It takes no memory.
    pub fn name(&self, number: u32) -> Option<&Name>
        ensures { option_copied result ≡ slice_get self.now number }
    {
        self.names.get_index(number as usize)
    }

    /// The names in the order of their numbers.
    pub fn as_slice(&self) -> &[Name]
        ensures names { result.now ≡ self.now }
        ensures once { IsDistinct name_eq self.now }
    {
        self.names.as_slice()
    }

    /// The number of a name, which gets the next one where it has none. Where there is no memory for that, nothing has
    /// changed.
    pub fn give(&mut self, name: &Name) -> Result<u32, NoMemory>
        ensures given { IfOk result (λ at. slice_get self.new at ≡ Some name.now) }
        ensures names { OnOk result (self.new ≡ seen_also self.old name.now) }
        ensures refused { OnErr result (self.new ≡ self.old) }
    {
        if self.names.len() >= LIST_LIMIT {
            return self.given(name);
        }
        let copy = name.copy(self.alloc)?;
        match self.names.insert_full(copy) {
            Ok((at, _)) => Ok(at as u32),
            Err(_) => Err(NoMemory),
        }
    }

    // The number of a name where no other may get one.
    fn given(&self, name: &Name) -> Result<u32, NoMemory>
        ensures given { IfOk result (λ at. slice_get self.now at ≡ Some name.now) }
        ensures known { OnOk result (seen_also self.now name.now ≡ self.now) }
    {
        match self.find(name) {
            Some(number) => Ok(number),
            None => Err(NoMemory),
        }
    }

    /// The names as a list of their own.
    pub fn list(&self, alloc: Global) -> Result<Names, NoMemory>
        ensures { IfOk result (λ list. list ≡ self.now) }
    {
        let mut list = Names::with_room(alloc, self.names.len())?;
        for name in self.names.as_slice() {
            list.push(name.copy(alloc)?)?;
        }
        Ok(list)
    }
}
