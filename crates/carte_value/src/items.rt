ghost use Rattle.std.specs.Prelude.{◌≡◌, ◌<◌, ◌^◌, ◌++◌, ◌∷◌, [], List, length, slice_get, option_copied, IfOk, ◌==◌, is_ok, if◌then◌else◌, take};

use crate::NoMemory;
use std::alloc::Global;
use std::marker::Model;

/// The most items that a list has: 2^32 - 1.
pub const LIST_LIMIT: usize = 4_294_967_295;

/// What `copy` of a list makes of each item.
pub trait Same: Sized {
    /// A second value that equals this one.
    fn same(&self, alloc: Global) -> Result<Self, NoMemory>
        ensures { IfOk result (λ copy. copy ≡ self.now) };
}

/// A list of at most 2^32 - 1 items, seen as these items.
#[derive(Debug, Drop)]
pub struct Items<T> {
    items: Vec<T>,
}

impl<T> Model for Items<T> {
    ghost use Rattle.std.specs.Prelude.{ℕ, ◌<◌, ◌^◌, List, length};
    ghost use Rattle.std.specs.Coded.{coded_list};

    ghost Value = { List T };

    ghost coded = { coded_list T.code };

    ghost view = { λ a. a.items.items };

    ghost invariant = { λ a. length a.items.items < 2 ^ 32 };
}

impl<T> Items<T> {
    /// The empty list, whose items will come from `alloc`. It takes no memory.
    pub fn new(alloc: Global) -> Items<T>
        ensures { result ≡ [] }
    {
        Items {
            items: Vec::new(alloc),
        }
    }

    /// The empty list with room for so many items, so that these take no more memory than they need.
    pub fn with_room(alloc: Global, count: usize) -> Result<Items<T>, NoMemory>
        ensures { IfOk result (λ items. items ≡ []) }
    {
        let items = Vec::with_capacity(alloc, count)?;
        Ok(Items { items })
    }

    /// How many items there are.
    pub fn len(&self) -> usize
        ensures number { result ≡ length self.now }
        ensures bound { result < 2 ^ 32 }
    {
        self.items.len()
    }

    pub fn is_empty(&self) -> bool
        ensures { result ≡ (length self.now == 0) }
    {
        self.items.is_empty()
    }

    /// The item at a place counted from 0, where the list is longer than that.
    pub fn get(&self, at: usize) -> Option<&T>
        ensures { option_copied result ≡ slice_get self.now at }
    {
        self.items.get(at)
    }

    /// The items as a slice.
    pub fn as_slice(&self) -> &[T]
        ensures { result.now ≡ self.now }
    {
        self.items.as_slice()
    }
}

impl<T: Drop> Items<T> {
    /// Puts an item behind the others. Where there is no room for it, it is dropped and nothing has changed.
    pub fn push(&mut self, item: T) -> Result<(), NoMemory>
        ensures { self.new ≡ (if is_ok result then self.old ++ item ∷ [] else self.old) }
    {
        if self.items.len() >= LIST_LIMIT {
            return Err(NoMemory);
        }
        self.items.push(item)?;
        Ok(())
    }

    /// Puts all items of a later list behind these, in their order. Where there is no room for them, they are dropped and nothing has changed.
    pub fn append(&mut self, later: Items<T>) -> Result<(), NoMemory>
        ensures { self.new ≡ (if is_ok result then self.old ++ later else self.old) }
    {
        let mut later = later.items;
        if later.len() > LIST_LIMIT - self.items.len() {
            return Err(NoMemory);
        }
        self.items.append(&mut later)?;
        Ok(())
    }

    /// Drops the items behind the first `len`.
    pub fn truncate(&mut self, len: usize)
        ensures { self.new ≡ take len self.old }
    {
        self.items.truncate(len);
    }
}

impl<T: Same + Drop> Items<T> {
    /// A second list of equal items.
    pub fn copy(&self, alloc: Global) -> Result<Items<T>, NoMemory>
        ensures { IfOk result (λ copy. copy ≡ self.now) }
    {
        let mut items = Items::with_room(alloc, self.items.len())?;
        for item in self.items.iter() {
            items.push(item.same(alloc)?)?;
        }
        Ok(items)
    }
}
