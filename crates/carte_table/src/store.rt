ghost use Rattle.std.specs.Prelude.{◌≡◌, ◌<◌, ◌^◌, ◌∷◌, ◌++◌, [], List, length, map, slice_get, option_map, option_copied, ◌==◌, is_ok, take, IfOk, IsTrue, OnOk, Some, None, if◌then◌else◌};
ghost use Rattle.carte_codec.specs.Lengths.{IsLengthOf};
ghost use Rattle.carte_value.specs.Spelling.{digest_of, spelling};
ghost use Rattle.std.specs.HashMap.{get};
ghost use Rattle.carte_name.specs.Names.{name_eq};
ghost use Rattle.carte_table.specs.Lookups.{first_value, is_value_of};
ghost use Rattle.carte_table.specs.Places.{IsFirstPlaces};
ghost use Rattle.carte_table.specs.Changes.{front};
ghost use Rattle.carte_value.specs.declared.digest.Digest.{Digest as SomeDigest};
ghost use Rattle.std.specs.Option.{option_or};
ghost use Rattle.carte_value.specs.Lists.{Begins};

use crate::digest_key::DigestKey;
use crate::table::{Table, add, add_place, first, forget, make_place, make_room, push, widen};
use carte_codec::{items_length, with_item, without_item};
use carte_value::{Digest, NoMemory, Seeded, Value};
use std::alloc::Global;
use std::marker::Model;

/// A list of at most 2^32 - 1 values, seen as these values, in which a digest is looked up at once. The digest of each
/// value stands beside it, so that it is taken once.
#[derive(Drop)]
pub struct Store {
    values: Vec<Value>,
    digests: Vec<Digest>,
    places: Table<DigestKey, u32>,
    known: Option<u64>,
}

impl Model for Store {
    ghost use Rattle.std.specs.Prelude.{◌≡◌, List, length, map, ◌<◌, ◌^◌};
    ghost use Rattle.std.specs.HashMap.{get};
    ghost use Rattle.carte_name.specs.Names.{name_eq};
    ghost use Rattle.carte_value.specs.Spelling.{digest_of};
    ghost use Rattle.carte_value.specs.declared.value.Value.{Value as SomeValue};
    ghost use Rattle.carte_table.specs.Places.{IsFirstPlaces};
    ghost use Rattle.carte_table.specs.Lookups.{is_value_of};
    ghost use Rattle.carte_codec.specs.Lengths.{IsLengthOf};
    ghost use Rattle.carte_value.specs.Spelling.{spelling};

    ghost Value = { List SomeValue };

    ghost view = { λ a. a.values.items };

    ghost invariant = { λ a. (length a.values.items < 2 ^ 32) × (a.digests.items ≡ map digest_of a.values.items) × IsFirstPlaces (λ d. is_value_of (record { 0 = d })) a.values.items (get name_eq a.places) × IsLengthOf spelling a.values.items a.known };
}

impl Store {
    /// The empty list, whose values will come from `alloc`. It takes no memory.
    pub fn new(alloc: Global, hasher: Seeded) -> Store
        ensures { result ≡ [] }
    {
        Store {
            values: Vec::new(alloc),
            digests: Vec::new(alloc),
            places: Table::with_hasher(alloc, hasher),
            known: Some(0),
        }
    }

    /// The empty list with room for so many values, so that these take no more memory than they need.
    pub(crate) fn with_room(alloc: Global, count: usize, hasher: Seeded) -> Result<Store, NoMemory>
        ensures { IfOk result (λ list. list ≡ []) }
    {
        Ok(Store {
            values: Vec::with_capacity(alloc, count)?,
            digests: Vec::with_capacity(alloc, count)?,
            places: Table::with_capacity_and_hasher(alloc, count, hasher)?,
            known: Some(0),
        })
    }

    /// These values, with their digests, and the places of these in a table. How many bytes they take isn't counted until
    /// they become another list's.
    pub fn with_places(alloc: Global, values: Vec<Value>, hasher: Seeded) -> Result<Store, NoMemory>
        requires { length values.items < 2 ^ 32 }
        ensures { IfOk result (λ list. list ≡ values.items) }
    {
        let (digests, places) = digests_of_all(alloc, values.as_slice(), hasher)?;
        Ok(Store {
            values,
            digests,
            places,
            known: None,
        })
    }

    /// Room for so many values more at once, where it has few beside these.
    pub fn widen(&mut self, more: usize)
        ensures { self.new ≡ self.old }
    {
        widen(&mut self.values, &mut self.places, more);
        make_room(&mut self.digests, more);
    }

    /// How many values there are.
    pub fn len(&self) -> usize
        ensures number { result ≡ length self.now }
        ensures bound { result < 2 ^ 32 }
    {
        self.values.len()
    }

    pub fn is_empty(&self) -> bool
        ensures { result ≡ (length self.now == 0) }
    {
        self.values.is_empty()
    }

    /// The value at a place counted from 0, where the list is longer than that.
    pub fn get(&self, at: usize) -> Option<&Value>
        ensures { option_copied result ≡ slice_get self.now at }
    {
        self.values.get(at)
    }

    /// The values as a slice.
    pub fn as_slice(&self) -> &[Value]
        ensures { result.now ≡ self.now }
    {
        self.values.as_slice()
    }

    /// The first value of a digest, where there is one. It takes no memory.
    pub fn find(&self, digest: &Digest) -> Option<&Value>
        ensures { option_copied result ≡ first_value self.now digest.now }
    {
        let key = DigestKey::of(digest);
        first(self.values.as_slice(), &self.places, &key)
    }

    /// The digest of the value at a place counted from 0, where the list is longer than that.
    pub fn digest(&self, at: usize) -> Option<&Digest>
        ensures { option_copied result ≡ option_map digest_of (slice_get self.now at) }
    {
        self.digests.get(at)
    }

    /// How many bytes the values are spelled as, where that is known. It takes no pass over them.
    pub fn length(&self) -> Option<u64>
        ensures { IsLengthOf spelling self.now result }
    {
        self.known
    }

    fn measure(&mut self)
        ensures { self.new ≡ self.old }
    {
        self.known = items_length(self.values.as_slice());
    }

    // Whether it has nothing, nor room for more than so many values.
    fn can_become(&self, len: usize) -> bool
        ensures { IsTrue result → self.now ≡ [] }
    {
        self.values.is_empty() && self.values.capacity() <= len
    }

    /// Puts the values of a later list behind these, but for those whose digest is there. Where there is no room for all
    /// of them, some may stand there.
    pub fn take_in(&mut self, later: Store) -> Result<(), NoMemory>
        ensures ok { OnOk result ((d : SomeDigest) → first_value self.new d ≡ option_or (first_value self.old d) (first_value later d)) }
        ensures front { Begins self.old self.new }
    {
        if self.can_become(later.len()) {
            *self = later;
            self.measure();
            return Ok(());
        }
        self.widen(later.len());
        let digests = later.digests;
        let mut at = 0;
        for value in later.values {
            self.put(value, digests[at])?;
            at += 1;
        }
        Ok(())
    }

    fn put(&mut self, value: Value, digest: Digest) -> Result<(), NoMemory>
        requires { digest ≡ digest_of value }
        ensures ok { OnOk result ((d : SomeDigest) → first_value self.new d ≡ option_or (first_value self.old d) (if is_value_of d value then Some value else None)) }
        ensures front { Begins self.old self.new }
    {
        make_place(&mut self.digests)?;
        let key = DigestKey::of(&digest);
        if !add_place(&mut self.values, &mut self.places, key)? {
            return Ok(());
        }
        self.known = with_item(self.known, &value);
        self.values.push_reserved(value);
        self.digests.push_reserved(digest);
        Ok(())
    }

    /// Drops the values behind the first `len`.
    pub fn truncate(&mut self, len: usize)
        ensures { self.new ≡ take len self.old }
    {
        while self.values.len() > len {
            self.pop();
        }
    }

    fn pop(&mut self)
        ensures { self.new ≡ front self.old }
    {
        if let Some(value) = self.values.pop() {
            self.known = without_item(self.known, &value);
            if let Some(digest) = self.digests.pop() {
                let key = DigestKey::of(&digest);
                forget(&mut self.places, &key, self.values.len());
            }
        }
    }

    /// A second list of equal values.
    pub fn copy(&self, alloc: Global) -> Result<Store, NoMemory>
        ensures { IfOk result (λ copy. copy ≡ self.now) }
    {
        let mut store = Store::with_room(alloc, self.len(), *self.places.hasher())?;
        for at in 0..self.values.len() {
            store.push_with(self.values[at].copy(alloc)?, self.digests[at])?;
        }
        Ok(store)
    }

    /// Puts a value behind the others. Where there is no room for it, it is dropped and nothing has changed.
    pub fn push(&mut self, value: Value) -> Result<(), NoMemory>
        ensures { self.new ≡ (if is_ok result then self.old ++ value ∷ [] else self.old) }
    {
        let digest = value.digest();
        self.push_with(value, digest)
    }

    /// The same of a value whose digest is known, so that it isn't taken again.
    pub fn push_with(&mut self, value: Value, digest: Digest) -> Result<(), NoMemory>
        requires { digest ≡ digest_of value }
        ensures { self.new ≡ (if is_ok result then self.old ++ value ∷ [] else self.old) }
    {
        make_place(&mut self.digests)?;
        let key = DigestKey::of(&digest);
        let known = with_item(self.known, &value);
        push(&mut self.values, &mut self.places, key, value)?;
        self.known = known;
        self.digests.push_reserved(digest);
        Ok(())
    }
}

/// The digests of values, and their places.
fn digests_of_all(
    alloc: Global,
    values: &[Value],
    hasher: Seeded,
) -> Result<(Vec<Digest>, Table<DigestKey, u32>), NoMemory>
    requires { length values.now < 2 ^ 32 }
    ensures { IfOk result (λ r. (r.0.items ≡ map digest_of values.now) × IsFirstPlaces (λ d. is_value_of (record { 0 = d })) values.now (get name_eq r.1)) }
{
    let mut digests = Vec::with_capacity(alloc, values.len())?;
    let mut table = Table::with_capacity_and_hasher(alloc, values.len(), hasher)?;
    for at in 0..values.len() {
        let digest = values[at].digest();
        let key = DigestKey::of(&digest);
        add(&mut table, key, at as u32)?;
        digests.push(digest)?;
    }
    Ok((digests, table))
}
