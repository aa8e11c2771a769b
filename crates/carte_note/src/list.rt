ghost use Rattle.std.specs.Prelude.{◌≡◌, ◌<◌, ◌^◌, ◌++◌, ◌∷◌, [], length, slice_get, option_copied, ◌==◌, is_ok, IfOk, IfSome, OnOk, OnErr, List, IsTrue, take, vec_len, vec_capacity, if◌then◌else◌};
ghost use Rattle.std.specs.HashMap.{get};
ghost use Rattle.carte_name.specs.Names.{name_eq};
ghost use Rattle.carte_table.specs.Places.{IsFirstPlaces};
ghost use Rattle.std.specs.List.{IsDistinct};
ghost use Rattle.carte_note.specs.declared.finished.Finished.{Finished as SomeFinished};
ghost use Rattle.carte_note.specs.Lists.{finished_of, is_of_key};
ghost use Rattle.carte_note.specs.Right.{keys_in};

use crate::Finished;
use carte_table::table::{add, each_once, first, place};
use carte_value::{Name, NoMemory, Seeded};
use std::alloc::Global;
use std::collections::HashMap;
use std::marker::Model;

/// The most finished keys that a list has: no book has more rules.
const MOST: usize = 4294967295;

/// From how many keys on a list grows to four times itself.
const LONG: usize = 1024;

/// Of each key the place where it stands first.
type Places = HashMap<Name, u32, Seeded>;

/// The keys that a build has finished, in their order, seen as these. Most builds look none of them up, so the list has no
/// index until `index` makes one, or a key comes with what lies beneath it: from then on a key is looked up at once.
#[derive(Drop)]
pub struct FinishedList {
    alloc: Global,
    hasher: Seeded,
    finished: Vec<Finished>,
    places: Option<Places>,
}

impl Model for FinishedList {
    ghost use Rattle.std.specs.Prelude.{List, length, ◌<◌, ◌^◌, IfSome};
    ghost use Rattle.std.specs.HashMap.{get};
    ghost use Rattle.carte_name.specs.Names.{name_eq};
    ghost use Rattle.carte_table.specs.Places.{IsFirstPlaces};
    ghost use Rattle.carte_note.specs.declared.finished.Finished.{Finished};
    ghost use Rattle.carte_note.specs.Lists.{is_of_key};

    ghost Value = { List Finished };

    ghost view = { λ a. a.finished.items };

    ghost invariant = { λ a. (length a.finished.items < 2 ^ 32) × IfSome a.places (λ p. IsFirstPlaces is_of_key a.finished.items (get name_eq p)) };
}

impl FinishedList {
    /// The empty list, whose keys will come from `alloc` and be hashed by `hasher` once it is indexed. It takes no memory.
    pub fn new(alloc: Global, hasher: Seeded) -> FinishedList
        ensures { result ≡ [] }
    {
        FinishedList {
            alloc,
            hasher,
            finished: Vec::new(alloc),
            places: None,
        }
    }

    /// The same with room for so many keys, so that these take no more memory than they need.
    pub fn with_room(alloc: Global, count: usize, hasher: Seeded) -> Result<FinishedList, NoMemory>
        ensures { IfOk result (λ list. list ≡ []) }
    {
        let finished = Vec::with_capacity(alloc, count)?;
        Ok(FinishedList {
            alloc,
            hasher,
            finished,
            places: None,
        })
    }

    /// How many keys there are.
    pub fn len(&self) -> usize
        ensures number { result ≡ length self.now }
        ensures bound { result < 2 ^ 32 }
    {
        self.finished.len()
    }

    pub fn is_empty(&self) -> bool
        ensures { result ≡ (length self.now == 0) }
    {
        self.finished.is_empty()
    }

    /// The finished key at a place counted from 0, where the list is longer than that.
    pub fn get(&self, at: usize) -> Option<&Finished>
        ensures { option_copied result ≡ slice_get self.now at }
    {
        self.finished.get(at)
    }

    /// The finished keys as a slice.
    pub fn as_slice(&self) -> &[Finished]
        ensures { result.now ≡ self.now }
    {
        self.finished.as_slice()
    }

    /// Has the list look keys up at once from now on. The first call takes a pass over the keys that it has, and room for
    /// an index of them; each later one takes nothing. Where there is no room, nothing has changed.
    pub fn index(&mut self) -> Result<(), NoMemory>
        ensures { self.new ≡ self.old }
    {
        if self.places.is_none() {
            let places = places_of_all(self.alloc, self.finished.as_slice(), self.hasher)?;
            self.places = Some(places);
        }
        Ok(())
    }

    /// Whether it is known that no key comes twice, as an index tells without a pass over them. Without one it isn't known.
    pub fn has_each_once(&self) -> bool
        ensures { IsTrue result → IsDistinct name_eq (keys_in self.now) }
    {
        match &self.places {
            Some(places) => each_once(self.finished.as_slice(), places),
            None => false,
        }
    }

    /// The first finished key of a name, where there is one. It takes no memory, and without an index a pass over the keys.
    pub fn find(&self, key: &Name) -> Option<&Finished>
        ensures { option_copied result ≡ finished_of self.now key.now }
    {
        match &self.places {
            Some(places) => first(self.finished.as_slice(), places, key),
            None => look(self.finished.as_slice(), key),
        }
    }

    /// The same of the first so many finished keys alone.
    pub fn find_before(&self, key: &Name, count: usize) -> Option<&Finished>
        ensures { option_copied result ≡ finished_of (take count self.now) key.now }
    {
        match &self.places {
            Some(places) => first_before(self.finished.as_slice(), places, key, count),
            None => look_before(self.finished.as_slice(), key, count),
        }
    }

    /// Where keys come with what lies beneath them, each next one looks up those that it needs.
    fn index_gathered(&mut self, finished: &Finished) -> Result<(), NoMemory>
        ensures { self.new ≡ self.old }
    {
        if finished.tasks.is_empty() {
            return Ok(());
        }
        self.index()
    }

    /// Puts a finished key behind the others. Where there is no room for it, it is dropped and nothing has changed.
    pub fn push(&mut self, finished: Finished) -> Result<(), NoMemory>
        ensures { self.new ≡ (if is_ok result then self.old ++ finished ∷ [] else self.old) }
    {
        self.index_gathered(&finished)?;
        self.put(finished)
    }

    fn put(&mut self, finished: Finished) -> Result<(), NoMemory>
        ensures { self.new ≡ (if is_ok result then self.old ++ finished ∷ [] else self.old) }
    {
        let at = self.finished.len();
        if at >= MOST {
            return Err(NoMemory);
        }
        make_place(&mut self.finished)?;
        put_place(self.alloc, &mut self.places, &finished, at as u32)?;
        self.finished.push_reserved(finished);
        Ok(())
    }
}

/// Makes a place for one key more. A long list that is full grows to four times itself and isn't doubled, so that its keys
/// are copied a third as often: a build has one such list, and room that nothing touches takes no memory.
fn make_place(finished: &mut Vec<Finished>) -> Result<(), NoMemory>
    ensures items { finished.new.items ≡ finished.old.items }
    ensures ok { OnOk result (vec_len finished.new < vec_capacity finished.new) }
{
    let len = finished.len();
    if len >= LONG && len == finished.capacity() {
        let _room = finished.reserve(len.saturating_mul(3));
    }
    finished.reserve(1)?;
    Ok(())
}

/// The places of all keys.
fn places_of_all(alloc: Global, finished: &[Finished], hasher: Seeded) -> Result<Places, NoMemory>
    requires { length finished.now < 2 ^ 32 }
    ensures { IfOk result (λ p. IsFirstPlaces is_of_key finished.now (get name_eq p)) }
{
    let mut places = Places::with_capacity_and_hasher(alloc, finished.len(), hasher)?;
    for at in 0..finished.len() {
        let key = finished[at].made.key().copy(alloc)?;
        add(&mut places, key, at as u32)?;
    }
    Ok(places)
}

/// Puts the place of one key more into the index, where there is one.
fn put_place(
    alloc: Global,
    places: &mut Option<Places>,
    finished: &Finished,
    at: u32,
) -> Result<(), NoMemory>
    ensures ok { (fs : List SomeFinished) → at ≡ length fs → IfSome places.old (λ p. IsFirstPlaces is_of_key fs (get name_eq p)) → OnOk result (IfSome places.new (λ p. IsFirstPlaces is_of_key (fs ++ finished.now ∷ []) (get name_eq p))) }
    ensures no_memory { (fs : List SomeFinished) → IfSome places.old (λ p. IsFirstPlaces is_of_key fs (get name_eq p)) → OnErr result (IfSome places.new (λ p. IsFirstPlaces is_of_key fs (get name_eq p))) }
{
    match places {
        Some(places) => {
            let key = finished.made.key().copy(alloc)?;
            add(places, key, at)?;
            Ok(())
        }
        None => Ok(()),
    }
}

fn first_before<'a>(
    finished: &'a [Finished],
    places: &Places,
    key: &Name,
    count: usize,
) -> Option<&'a Finished>
    ensures { IsFirstPlaces is_of_key finished.now (get name_eq places.now) → option_copied result ≡ finished_of (take count finished.now) key.now }
{
    match place(places, key) {
        Some(at) => item_before(finished, at, count),
        None => None,
    }
}

fn item_before(finished: &[Finished], at: usize, count: usize) -> Option<&Finished>
    ensures { option_copied result ≡ slice_get (take count finished.now) at }
{
    if at < count {
        return finished.get(at);
    }
    None
}

/// The first finished key of a name, without an index.
fn look<'a>(finished: &'a [Finished], key: &Name) -> Option<&'a Finished>
    ensures { option_copied result ≡ finished_of finished.now key.now }
{
    for one in finished {
        if *key == *one.made.key() {
            return Some(one);
        }
    }
    None
}

fn look_before<'a>(finished: &'a [Finished], key: &Name, count: usize) -> Option<&'a Finished>
    ensures { option_copied result ≡ finished_of (take count finished.now) key.now }
{
    if count < finished.len() {
        let (front, _) = finished.split_at(count);
        return look(front, key);
    }
    look(finished, key)
}
