ghost use Rattle.std.specs.Prelude.{◌≡◌, ◌<◌, ◌≤◌, ◌^◌, ◌∷◌, ◌++◌, [], ℕ, List, false, length, slice_get, option_copied, ◌==◌, filter, is_ok, take, IfOk, IsTrue, OnOk, OnErr, if◌then◌else◌};
ghost use Rattle.std.specs.List.{list_any};
ghost use Rattle.std.specs.HashMap.{get};
ghost use Rattle.carte_name.specs.Names.{name_eq};
ghost use Rattle.carte_table.specs.Latest.{latest_length, stands_at};
ghost use Rattle.carte_table.specs.Lookups.{has_key};
ghost use Rattle.carte_table.specs.Places.{places, ArePlaces, AddsToPlaces, DropsPlace};
ghost use Rattle.carte_table.specs.Changes.{front, is_of_none};
ghost use Rattle.carte_value.specs.Lists.{Begins};
ghost use Rattle.carte_table.specs.KeyPlaces.{places_in};

use crate::keyed::Compared;
use crate::table::{MOST, Table, make_place, widen};
use crate::{NameTable, Places, Plain};
use carte_value::{Name, NoMemory, Seeded};
use std::alloc::Global;
use std::marker::Model;

/// With how many items of its key a later one is compared at most.
const FEW: usize = 16;

/// A list of at most 2^32 - 1 items, seen as these items, in which all items of a key are looked up at once.
#[derive(Drop)]
pub struct All<T: Compared> {
    alloc: Global,
    items: Vec<T>,
    places: Table<Name, Places>,
    least: u64,
}

impl<T: Compared> Model for All<T> {
    ghost use Rattle.std.specs.Prelude.{List, length, ◌<◌, ◌≤◌, ◌^◌};
    ghost use Rattle.std.specs.HashMap.{get};
    ghost use Rattle.std.specs.Coded.{coded_list};
    ghost use Rattle.carte_name.specs.Names.{name_eq};
    ghost use Rattle.carte_table.specs.Places.{ArePlaces};
    ghost use Rattle.carte_table.specs.KeyPlaces.{places_in};
    ghost use Rattle.carte_table.specs.Latest.{latest_length};
    ghost use Rattle.carte_table.specs.Lookups.{has_key};

    ghost Value = { List T };

    ghost coded = { coded_list T.code };

    ghost view = { λ a. a.items.items };

    ghost invariant = { λ a. (length a.items.items < 2 ^ 32) × ArePlaces (has_key T.key_of) a.items.items (λ q. places_in (get name_eq a.places q)) × (a.least ≤ latest_length T.alike T.spelled a.items.items) };
}

impl<T: Compared + Drop> All<T> {
    /// The empty list, whose items will come from `alloc`. It takes no memory.
    pub fn new(alloc: Global, hasher: Seeded) -> All<T>
        ensures { result ≡ [] }
    {
        All {
            alloc,
            items: Vec::new(alloc),
            places: Table::with_hasher(alloc, hasher),
            least: 0,
        }
    }

    /// The empty list with room for so many items, so that these take no more memory than they need.
    pub fn with_room(alloc: Global, count: usize, hasher: Seeded) -> Result<All<T>, NoMemory>
        ensures { IfOk result (λ list. list ≡ []) }
    {
        Ok(All {
            alloc,
            items: Vec::with_capacity(alloc, count)?,
            places: Table::with_capacity_and_hasher(alloc, count, hasher)?,
            least: 0,
        })
    }

    /// These items, with their places in a table.
    pub fn with_places(alloc: Global, items: Vec<T>, hasher: Seeded) -> Result<All<T>, NoMemory>
        requires { length items.items < 2 ^ 32 }
        ensures { IfOk result (λ list. list ≡ items.items) }
    {
        let (places, least) = places_of_all(alloc, items.as_slice(), hasher)?;
        Ok(All {
            alloc,
            items,
            places,
            least,
        })
    }

    /// How many items there are.
    pub fn len(&self) -> usize
        ensures number { result ≡ length self.now }
        ensures bound { result < 2 ^ 32 }
    {
        self.items.len()
    }

    pub fn is_empty(&self) -> bool
        ensures { result ≡ (length self.now == 0) }
    {
        self.items.is_empty()
    }

    /// Room for so many items more at once, where it has few beside these.
    pub fn widen(&mut self, more: usize)
        ensures { self.new ≡ self.old }
    {
        widen(&mut self.items, &mut self.places, more);
    }

    /// The item at a place counted from 0, where the list is longer than that.
    pub fn get(&self, at: usize) -> Option<&T>
        ensures { option_copied result ≡ slice_get self.now at }
    {
        self.items.get(at)
    }

    /// The items as a slice.
    pub fn as_slice(&self) -> &[T]
        ensures { result.now ≡ self.now }
    {
        self.items.as_slice()
    }

    /// The places of a key's items, ascending. It takes no memory.
    pub fn places(&self, key: &Name) -> &[u32]
        ensures { result.now ≡ places (has_key T.key_of key.now) self.now }
    {
        match self.places.get(key) {
            Some(places) => places.as_slice(),
            None => &[],
        }
    }

    /// In how many bytes at least those items are spelled of which no equal one comes later: in just so many where no key
    /// has more than 16 items. It takes no pass over them.
    pub fn least_length(&self) -> u64
        ensures { result ≤ latest_length T.alike T.spelled self.now }
    {
        self.least
    }

    /// Has the list know that those items are spelled in so many bytes at least, so that `least_length` tells no fewer, and
    /// counts from there what comes later.
    pub fn learn_length(&mut self, length: u64)
        requires { length ≤ latest_length T.alike T.spelled self.old }
        ensures { self.new ≡ self.old }
    {
        if length > self.least {
            self.least = length;
        }
    }

    // Whether it has nothing, nor room for more than so many items.
    fn can_become(&self, len: usize) -> bool
        ensures { IsTrue result → self.now ≡ [] }
    {
        self.items.is_empty() && self.items.capacity() <= len
    }

    /// Puts the items of a later list behind these. Where there is no room for all of them, some may stand there.
    pub fn append(&mut self, later: Plain<T>) -> Result<(), NoMemory>
        ensures ok { OnOk result (self.new ≡ self.old ++ later) }
        ensures front { Begins self.old self.new }
    {
        if self.can_become(later.len()) {
            *self = All::with_places(self.alloc, later.into_items(), *self.places.hasher())?;
            return Ok(());
        }
        self.widen(later.len());
        for item in later.into_items() {
            self.push(item)?;
        }
        Ok(())
    }

    /// Drops the items behind the first `len`.
    pub fn truncate(&mut self, len: usize)
        ensures { self.new ≡ take len self.old }
    {
        while self.items.len() > len {
            self.pop();
        }
    }

    fn pop(&mut self)
        ensures { self.new ≡ front self.old }
    {
        if let Some(item) = self.items.pop() {
            self.least = without_last(self.least, &item);
            forget(&mut self.places, item.key());
        }
    }

    /// A second list of equal items.
    pub fn copy(&self, alloc: Global) -> Result<All<T>, NoMemory>
        ensures { IfOk result (λ copy. copy ≡ self.now) }
    {
        let mut list = All::with_room(alloc, self.len(), *self.places.hasher())?;
        for item in self.items.iter() {
            list.push(item.same(alloc)?)?;
        }
        Ok(list)
    }

    /// A second list of equal items, but for those of these keys.
    pub fn without(&self, alloc: Global, gone: &NameTable) -> Result<All<T>, NoMemory>
        ensures { IfOk result (λ left. left ≡ filter (is_of_none T.key_of gone.now) self.now) }
    {
        let mut left = All::with_room(alloc, self.len(), *self.places.hasher())?;
        for item in self.items.iter() {
            left.push_unless(alloc, item, gone)?;
        }
        Ok(left)
    }

    fn push_unless(&mut self, alloc: Global, item: &T, gone: &NameTable) -> Result<(), NoMemory>
        ensures { OnOk result (self.new ≡ (if is_of_none T.key_of gone.now item.now then self.old ++ item.now ∷ [] else self.old)) }
    {
        if gone.find(item.key()).is_some() {
            return Ok(());
        }
        self.push(item.same(alloc)?)
    }

    /// Puts an item behind the others. Where there is no room for it, it is dropped and nothing has changed.
    pub fn push(&mut self, item: T) -> Result<(), NoMemory>
        ensures { self.new ≡ (if is_ok result then self.old ++ item ∷ [] else self.old) }
    {
        let at = self.items.len();
        if at >= MOST {
            return Err(NoMemory);
        }
        let key = item.key().copy(self.alloc)?;
        make_place(&mut self.items)?;
        let here = self.items.as_slice();
        let is_new = add(self.alloc, &mut self.places, key, here, &item)?;
        self.least = with_last(self.least, is_new, &item);
        self.items.push_reserved(item);
        Ok(())
    }
}

// The least length with this item behind the others, which adds to it where it differs from each of them.
fn with_last<T: Compared>(least: u64, is_new: bool, item: &T) -> u64
    ensures { (xs : List T) → (IsTrue is_new → list_any (T.alike item.now) xs ≡ false) → least ≤ latest_length T.alike T.spelled xs → result ≤ latest_length T.alike T.spelled (xs ++ item.now ∷ []) }
{
    if !is_new {
        return least;
    }
    if let Some(more) = item.length() {
        if let Some(sum) = least.checked_add(more) {
            return sum;
        }
    }
    least
}

// And without it, where it was the last.
fn without_last<T: Compared>(least: u64, item: &T) -> u64
    ensures { (xs : List T) → least ≤ latest_length T.alike T.spelled (xs ++ item.now ∷ []) → result ≤ latest_length T.alike T.spelled xs }
{
    match item.length() {
        Some(less) => least.saturating_sub(less),
        None => 0,
    }
}

// Whether none of these items equals this one, of whose key there are items at these places. Where they are many it
// isn't looked up: then a key that often changes would have all its items compared with each other.
fn is_new<T: Compared>(items: &[T], at: &[u32], item: &T) -> bool
    ensures { IsTrue result → at.now ≡ places (has_key T.key_of (T.key_of item.now)) items.now → list_any (T.alike item.now) items.now ≡ false }
{
    if at.len() > FEW {
        return false;
    }
    for place in at {
        if stands_at(items, *place, item) {
            return false;
        }
    }
    true
}

fn stands_at<T: Compared>(items: &[T], place: u32, item: &T) -> bool
    ensures { result ≡ stands_at T.alike item.now items.now place }
{
    match items.get(place as usize) {
        Some(other) => item.is_alike(other),
        None => false,
    }
}

// The places of all items, and their least length.
fn places_of_all<T: Compared>(
    alloc: Global,
    items: &[T],
    hasher: Seeded,
) -> Result<(Table<Name, Places>, u64), NoMemory>
    requires { length items.now < 2 ^ 32 }
    ensures { IfOk result (λ r. ArePlaces (has_key T.key_of) items.now (λ q. places_in (get name_eq r.0 q)) × (r.1 ≤ latest_length T.alike T.spelled items.now)) }
{
    let mut table = Table::with_capacity_and_hasher(alloc, items.len(), hasher)?;
    let mut least = 0u64;
    for at in 0..items.len() {
        let item = &items[at];
        let key = item.key().copy(alloc)?;
        let is_new = add(alloc, &mut table, key, items.split_at(at).0, item)?;
        least = with_last(least, is_new, item);
    }
    Ok((table, least))
}

// Puts the place behind these items into the table, as one of an item's key, and tells whether it differs from each of them.
fn add<T: Compared>(
    alloc: Global,
    table: &mut Table<Name, Places>,
    key: Name,
    items: &[T],
    item: &T,
) -> Result<bool, NoMemory>
    requires few { length items.now < 2 ^ 32 }
    requires key { key ≡ T.key_of item.now }
    ensures ok { OnOk result (AddsToPlaces name_eq (λ q. places_in (get name_eq table.old q)) (λ q. places_in (get name_eq table.new q)) key (length items.now)) }
    ensures no_memory { OnErr result ((q : List ℕ) → places_in (get name_eq table.new q) ≡ places_in (get name_eq table.old q)) }
    ensures is_new { IfOk result (λ is_new. IsTrue is_new → ArePlaces (has_key T.key_of) items.now (λ q. places_in (get name_eq table.old q)) → list_any (T.alike item.now) items.now ≡ false) }
{
    match table.entry(key) {
        Ok(entry) => {
            let places = entry.or_insert(Places::Gone);
            let is_new = is_new(items, places.as_slice(), item);
            places.push(alloc, items.len() as u32)?;
            Ok(is_new)
        }
        Err(_) => Err(NoMemory),
    }
}

fn forget(table: &mut Table<Name, Places>, key: &Name)
    ensures { DropsPlace name_eq (λ q. places_in (get name_eq table.old q)) (λ q. places_in (get name_eq table.new q)) key.now }
{
    if let Some(places) = table.get_mut(key) {
        places.pop();
    }
}
