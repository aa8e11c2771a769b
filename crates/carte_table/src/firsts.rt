ghost use Rattle.std.specs.Prelude.{◌≡◌, ◌<◌, ◌^◌, ◌∷◌, ◌++◌, [], Bool, List, length, slice_get, option_copied, ◌==◌, filter, is_ok, find, map, take, IfOk, IfSome, OnOk, OnErr, IsTrue, if◌then◌else◌};
ghost use Rattle.std.specs.List.{IsDistinct};
ghost use Rattle.std.specs.HashMap.{get};
ghost use Rattle.carte_name.specs.Names.{name_eq};
ghost use Rattle.carte_codec.specs.Lengths.{IsLengthOf};
ghost use Rattle.carte_table.specs.Lookups.{has_key};
ghost use Rattle.carte_table.specs.Places.{first_place, IsFirstPlaces};
ghost use Rattle.carte_table.specs.Changes.{all_changed, change_first, front, is_of_none};
ghost use Rattle.carte_value.specs.Lists.{Begins};
ghost use Rattle.carte_table.specs.Steps.{Replaces, Brings, CanBecome, IsReady};

use crate::keyed::{Keyed, Marked};
use crate::table::{
    Table, add, add_place, each_once, first, forget, length_with, place, push, set, widen,
};
use crate::{NameTable, Plain};
use carte_codec::{items_length, with_item, without_item};
use carte_value::{Name, Names, NoMemory, Seeded};
use std::alloc::Global;
use std::marker::Model;

/// A list of at most 2^32 - 1 items, seen as these items, in which the first item of a key is looked up at once.
#[derive(Drop)]
pub struct Firsts<T: Keyed> {
    alloc: Global,
    items: Vec<T>,
    places: Table<Name, u32>,
    known: Option<u64>,
}

impl<T: Keyed> Model for Firsts<T> {
    ghost use Rattle.std.specs.Prelude.{List, length, ◌<◌, ◌^◌};
    ghost use Rattle.std.specs.HashMap.{get};
    ghost use Rattle.std.specs.Coded.{coded_list};
    ghost use Rattle.carte_name.specs.Names.{name_eq};
    ghost use Rattle.carte_table.specs.Places.{IsFirstPlaces};
    ghost use Rattle.carte_table.specs.Lookups.{has_key};
    ghost use Rattle.carte_codec.specs.Lengths.{IsLengthOf};

    ghost Value = { List T };

    ghost coded = { coded_list T.code };

    ghost view = { λ a. a.items.items };

    ghost invariant = { λ a. (length a.items.items < 2 ^ 32) × IsFirstPlaces (has_key T.key_of) a.items.items (get name_eq a.places) × IsLengthOf T.spelled a.items.items a.known };
}

impl<T: Keyed + Drop> Firsts<T> {
    /// The empty list, whose items will come from `alloc`. It takes no memory.
    pub fn new(alloc: Global, hasher: Seeded) -> Firsts<T>
        ensures { result ≡ [] }
    {
        Firsts {
            alloc,
            items: Vec::new(alloc),
            places: Table::with_hasher(alloc, hasher),
            known: Some(0),
        }
    }

    /// The empty list with room for so many items, so that these take no more memory than they need.
    pub fn with_room(alloc: Global, count: usize, hasher: Seeded) -> Result<Firsts<T>, NoMemory>
        ensures { IfOk result (λ list. list ≡ []) }
    {
        Ok(Firsts {
            alloc,
            items: Vec::with_capacity(alloc, count)?,
            places: Table::with_capacity_and_hasher(alloc, count, hasher)?,
            known: Some(0),
        })
    }

    /// Room for so many items more at once, where it has few beside these.
    pub fn widen(&mut self, more: usize)
        ensures { self.new ≡ self.old }
    {
        widen(&mut self.items, &mut self.places, more);
    }

    /// Where its memory comes from.
    pub fn allocator(&self) -> Global {
        self.alloc
    }

    /// What its table is made with.
    pub fn hasher(&self) -> Seeded {
        *self.places.hasher()
    }

    /// How many items there are.
    pub fn len(&self) -> usize
        ensures number { result ≡ length self.now }
        ensures bound { result < 2 ^ 32 }
    {
        self.items.len()
    }

    pub fn is_empty(&self) -> bool
        ensures { result ≡ (length self.now == 0) }
    {
        self.items.is_empty()
    }

    /// The first item of a key, where there is one. It takes no memory.
    pub fn find(&self, key: &Name) -> Option<&T>
        ensures { option_copied result ≡ find (has_key T.key_of key.now) self.now }
    {
        first(self.items.as_slice(), &self.places, key)
    }

    /// The item at a place counted from 0, where the list is longer than that.
    pub fn get(&self, at: usize) -> Option<&T>
        ensures { option_copied result ≡ slice_get self.now at }
    {
        self.items.get(at)
    }

    /// The items as a slice.
    pub fn as_slice(&self) -> &[T]
        ensures { result.now ≡ self.now }
    {
        self.items.as_slice()
    }

    /// How many bytes the items are spelled as, where that is known and no key comes twice. It takes no pass over them.
    pub fn length(&self) -> Option<u64>
        ensures length { IsLengthOf T.spelled self.now result }
        ensures once { IfSome result (λ _. IsDistinct name_eq (map T.key_of self.now)) }
    {
        if !each_once(self.items.as_slice(), &self.places) {
            return None;
        }
        self.known
    }

    fn measure(&mut self)
        ensures { self.new ≡ self.old }
    {
        self.known = items_length(self.items.as_slice());
    }

    fn can_become(&self, later: &Firsts<T>) -> bool
        ensures { IsTrue result → CanBecome (has_key T.key_of) later.now self.now }
    {
        if !self.is_empty() {
            return false;
        }
        if self.items.capacity() > later.len() {
            return false;
        }
        each_once(later.items.as_slice(), &later.places)
    }

    /// These items, with the places of their keys in a table. How many bytes they take isn't counted until they become
    /// another list's.
    pub fn with_places(alloc: Global, items: Vec<T>, hasher: Seeded) -> Result<Firsts<T>, NoMemory>
        requires { length items.items < 2 ^ 32 }
        ensures { IfOk result (λ list. list ≡ items.items) }
    {
        let places = places_of_all(alloc, items.as_slice(), hasher)?;
        Ok(Firsts {
            alloc,
            items,
            places,
            known: None,
        })
    }

    /// Puts the items of a later list behind these whose keys have none here, and gives back those that are left, which it
    /// then takes in without fail; where it has nothing, nor room for more, and no key comes twice, it becomes that list.
    /// Where there is no room, some items may stand there.
    pub fn make_ready(&mut self, later: Firsts<T>) -> Result<Vec<T>, NoMemory>
        ensures ok { IfOk result (λ left. IsReady (has_key T.key_of) later self.old left.items self.new) }
        ensures front { Begins self.old self.new }
    {
        if self.can_become(&later) {
            *self = later;
            self.measure();
            return Ok(Vec::new(self.alloc));
        }
        self.bring_all(later.items)
    }

    /// The same of a list without a table: it gets one where this one may become it.
    pub fn make_ready_plain(&mut self, later: Plain<T>) -> Result<Vec<T>, NoMemory>
        ensures ok { IfOk result (λ left. IsReady (has_key T.key_of) later self.old left.items self.new) }
        ensures front { Begins self.old self.new }
    {
        if !self.is_empty() || self.items.capacity() > later.len() {
            return self.bring_all(later.into_items());
        }
        let later = Firsts::with_places(self.alloc, later.into_items(), self.hasher())?;
        self.make_ready(later)
    }

    fn bring_all(&mut self, items: Vec<T>) -> Result<Vec<T>, NoMemory>
        ensures ok { IfOk result (λ left. IsReady (has_key T.key_of) items.items self.old left.items self.new) }
        ensures front { Begins self.old self.new }
    {
        let mut left = Vec::new(self.alloc);
        self.widen(items.len());
        for item in items {
            self.bring(item, &mut left)?;
        }
        Ok(left)
    }

    /// Puts an item behind the others where its key has none here, and else behind those that are left. The key is looked
    /// up once, since as a state is loaded this is done for each of its entries.
    fn bring(&mut self, item: T, left: &mut Vec<T>) -> Result<(), NoMemory>
        ensures ok { OnOk result (Brings (has_key T.key_of) T.key_of item self.old left.old.items self.new left.new.items) }
        ensures no_memory { OnErr result (self.new ≡ self.old) }
    {
        let key = item.key().copy(self.alloc)?;
        if !add_place(&mut self.items, &mut self.places, key)? {
            left.push(item)?;
            return Ok(());
        }
        self.known = with_item(self.known, &item);
        self.items.push_reserved(item);
        Ok(())
    }

    /// Takes in what is left of a later list: each item is put in the place of the first one of its key, where there is one.
    pub fn take_in(&mut self, left: Vec<T>)
        ensures { Replaces (has_key T.key_of) left.items self.old self.new }
    {
        for item in left {
            self.replace(item);
        }
    }

    /// Puts an item in the place of the first one of its key, where there is one.
    fn replace(&mut self, item: T)
        ensures { self.new ≡ change_first (has_key T.key_of (T.key_of item)) (λ x. item) self.old }
    {
        let at = place(&self.places, item.key());
        let known = length_with(self.items.as_slice(), self.known, at, &item);
        set(&mut self.items, at, item);
        self.known = known;
    }

    /// Drops the items behind the first `len`.
    pub fn truncate(&mut self, len: usize)
        ensures { self.new ≡ take len self.old }
    {
        while self.items.len() > len {
            self.pop();
        }
    }

    fn pop(&mut self)
        ensures { self.new ≡ front self.old }
    {
        if let Some(item) = self.items.pop() {
            self.known = without_item(self.known, &item);
            forget(&mut self.places, item.key(), self.items.len());
        }
    }

    /// A second list of equal items.
    pub fn copy(&self, alloc: Global) -> Result<Firsts<T>, NoMemory>
        ensures { IfOk result (λ copy. copy ≡ self.now) }
    {
        let mut list = Firsts::with_room(alloc, self.len(), self.hasher())?;
        for item in self.items.iter() {
            list.push(item.same(alloc)?)?;
        }
        Ok(list)
    }

    /// A second list of equal items, but for those of these keys.
    pub fn without(&self, alloc: Global, gone: &NameTable) -> Result<Firsts<T>, NoMemory>
        ensures { IfOk result (λ left. left ≡ filter (is_of_none T.key_of gone.now) self.now) }
    {
        let mut left = Firsts::with_room(alloc, self.len(), self.hasher())?;
        for item in self.items.iter() {
            left.push_unless(alloc, item, gone)?;
        }
        Ok(left)
    }

    fn push_unless(&mut self, alloc: Global, item: &T, gone: &NameTable) -> Result<(), NoMemory>
        ensures { OnOk result (self.new ≡ (if is_of_none T.key_of gone.now item.now then self.old ++ item.now ∷ [] else self.old)) }
    {
        if gone.find(item.key()).is_some() {
            return Ok(());
        }
        self.push(item.same(alloc)?)
    }

    /// Puts an item behind the others. Where there is no room for it, it is dropped and nothing has changed.
    pub fn push(&mut self, item: T) -> Result<(), NoMemory>
        ensures { self.new ≡ (if is_ok result then self.old ++ item ∷ [] else self.old) }
    {
        let key = item.key().copy(self.alloc)?;
        let known = with_item(self.known, &item);
        push(&mut self.items, &mut self.places, key, item)?;
        self.known = known;
        Ok(())
    }
}

impl<T: Marked + Drop> Firsts<T> {
    /// Marks the first item of each of these keys, one after the other, or takes its mark off.
    pub fn mark_each(&mut self, keys: &Names, is_marked: bool)
        ensures { self.new ≡ all_changed (has_key T.key_of) (T.marked is_marked) self.old keys.now }
    {
        for key in keys.as_slice() {
            self.mark(key, is_marked);
        }
    }

    fn mark(&mut self, key: &Name, is_marked: bool)
        ensures { self.new ≡ change_first (has_key T.key_of key.now) (T.marked is_marked) self.old }
    {
        let at = place(&self.places, key);
        mark(&mut self.items, at, is_marked);
    }
}

fn places_of_all<T: Keyed>(
    alloc: Global,
    items: &[T],
    hasher: Seeded,
) -> Result<Table<Name, u32>, NoMemory>
    requires { length items.now < 2 ^ 32 }
    ensures { IfOk result (λ table. IsFirstPlaces (has_key T.key_of) items.now (get name_eq table)) }
{
    let mut table = Table::with_capacity_and_hasher(alloc, items.len(), hasher)?;
    for at in 0..items.len() {
        let key = items[at].key().copy(alloc)?;
        add(&mut table, key, at as u32)?;
    }
    Ok(table)
}

fn mark<T: Marked>(items: &mut Vec<T>, at: Option<usize>, is_marked: bool)
    ensures { (p : T → Bool) → at ≡ first_place p items.old.items → items.new.items ≡ change_first p (T.marked is_marked) items.old.items }
{
    if let Some(at) = at {
        if let Some(item) = items.get_mut(at) {
            item.mark(is_marked);
        }
    }
}
