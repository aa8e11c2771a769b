//! Tables from keys to places in a list.
ghost use Rattle.std.specs.Prelude.{◌≡◌, ◌<◌, ◌^◌, ◌+◌, ◌++◌, ◌∷◌, [], ℕ, Bool, None, Some, IsTrue, ◌↔◌, length, map, find, slice_get, option_copied, is_ok, IfSome, IfOk, OnOk, OnErr, vec_len, vec_capacity, if◌then◌else◌};
ghost use Rattle.std.specs.HashMap.{get};
ghost use Rattle.std.specs.List.{IsDistinct};
ghost use Rattle.carte_table.specs.Places.{first_place, IsFirstPlaces, AddsPlace, EntersPlace, ForgetsPlace};
ghost use Rattle.carte_table.specs.Changes.{change_first};
ghost use Rattle.carte_codec.specs.Lengths.{IsLengthOf};

use carte_codec::Measured;
use carte_value::{NoMemory, Seeded};
use std::collections::HashMap;
use std::collections::hash_map::Entry;
use std::hash::Hash;

/// The one name of these tables, so that their hasher can be changed here. It begins with a seed, since names can be chosen
/// that collide in one that is fixed.
pub type Table<K, V> = HashMap<K, V, Seeded>;

/// The most items that a list has.
pub const MOST: usize = 4294967295;

/// From how many items on a list grows by less than doubling.
const LONG: usize = 1024;

/// Makes room at once for so many more items and their keys, where the list is short beside them: then it takes little
/// more than it needs, and no table is made anew as it grows. A longer one grows as items come, since else each of many
/// small batches would copy it. Where there is no memory for the room, putting an item behind the others says so.
pub fn widen<K: Eq + Hash, V, T>(items: &mut Vec<T>, table: &mut Table<K, V>, more: usize)
    ensures items { items.new.items ≡ items.old.items }
    ensures table { (q : K) → get K.eq table.new q ≡ get K.eq table.old q }
{
    if wants_room(items, more) {
        let _places = table.reserve(more);
    }
    make_room(items, more);
}

/// The same of a list without a table.
pub fn make_room<T>(items: &mut Vec<T>, more: usize)
    ensures { items.new.items ≡ items.old.items }
{
    if wants_room(items, more) {
        let _room = items.reserve_exact(with_spare(more));
    }
}

/// Whether a list is short beside so many items more, and hasn't room for most of them. How many come is guessed anew behind
/// each batch, and a list that gets more room is copied with all the room that it had, so little more isn't worth it.
fn wants_room<T>(items: &Vec<T>, more: usize) -> bool {
    let room = items.capacity().saturating_sub(items.len());
    items.len() < more / 2 && room < more - more / 8
}

/// So many items, and where they are many an eighth more, since they are guessed: room that nothing touches takes no memory.
fn with_spare(more: usize) -> usize {
    if more < LONG {
        return more;
    }
    more.saturating_add(more / 8)
}

/// Makes a place for one more item. A long list that is full grows by a quarter of itself and isn't doubled: what was
/// loaded takes just what it needs, and one item more would make it twice that.
pub fn make_place<T>(items: &mut Vec<T>) -> Result<(), NoMemory>
    ensures items { items.new.items ≡ items.old.items }
    ensures ok { OnOk result (vec_len items.new < vec_capacity items.new) }
{
    let len = items.len();
    if len >= LONG && len == items.capacity() {
        let _room = items.reserve_exact(len / 4);
    }
    items.reserve(1)?;
    Ok(())
}

/// The first item of a key.
pub fn first<'a, K: Eq + Hash, T>(items: &'a [T], table: &Table<K, u32>, key: &K) -> Option<&'a T>
    ensures { (is_of : K → T → Bool) → IsFirstPlaces is_of items.now (get K.eq table.now) → option_copied result ≡ find (is_of key.now) items.now }
{
    match place(table, key) {
        Some(at) => item_at(items, at),
        None => None,
    }
}

fn item_at<T>(items: &[T], at: usize) -> Option<&T>
    ensures { option_copied result ≡ slice_get items.now at }
{
    items.get(at)
}

/// The first place of a key.
pub fn place<K: Eq + Hash>(table: &Table<K, u32>, key: &K) -> Option<usize>
    ensures { result ≡ get K.eq table.now key.now }
{
    match table.get(key) {
        Some(at) => Some(*at as usize),
        None => None,
    }
}

/// Whether no key comes twice in a list with this table, which has then as many keys as there are items.
pub fn each_once<K: Eq + Hash, T>(items: &[T], table: &Table<K, u32>) -> bool
    ensures { IsTrue result → (is_of : K → T → Bool) (key : T → K) → ((k : K) (x : T) → is_of k x ≡ K.eq k (key x)) → IsFirstPlaces is_of items.now (get K.eq table.now) → IsDistinct K.eq (map key items.now) }
{
    items.len() == table.len()
}

/// Puts an item in the place of the first one of its key, where there is one.
pub fn set<T: Drop>(items: &mut Vec<T>, at: Option<usize>, item: T)
    ensures { (p : T → Bool) → at ≡ first_place p items.old.items → items.new.items ≡ change_first p (λ x. item) items.old.items }
{
    if let Some(at) = at {
        if let Some(old) = items.get_mut(at) {
            *old = item;
        }
    }
}

/// How many bytes the items will be spelled as once this one stands in that place.
pub fn length_with<T: Measured>(
    items: &[T],
    known: Option<u64>,
    at: Option<usize>,
    item: &T,
) -> Option<u64>
    ensures { (p : T → Bool) → at ≡ first_place p items.now → IsLengthOf T.spelled items.now known → IsLengthOf T.spelled (change_first p (λ x. item.now) items.now) result }
{
    if let Some(at) = at {
        if let Some(old) = item_at(items, at) {
            return exchanged(known, old, item);
        }
    }
    known
}

fn exchanged<T: Measured>(known: Option<u64>, old: &T, item: &T) -> Option<u64>
    ensures { (m n : ℕ) → n + length (T.spelled old.now) ≡ m + length (T.spelled item.now) → IfSome known (λ k. k ≡ m) → IfSome result (λ k. k ≡ n) }
{
    let less = old.length()?;
    let more = item.length()?;
    known?.checked_sub(less)?.checked_add(more)
}

/// Takes a place that is no longer one out of the table.
pub fn forget<K: Eq + Hash + Drop>(table: &mut Table<K, u32>, key: &K, at: usize)
    ensures { ForgetsPlace K.eq (get K.eq table.old) (get K.eq table.new) key.now at }
{
    if has_place(table, key, at) {
        table.remove(key);
    }
}

fn has_place<K: Eq + Hash>(table: &Table<K, u32>, key: &K, at: usize) -> bool
    ensures { IsTrue result ↔ (get K.eq table.now key.now ≡ Some at) }
{
    match place(table, key) {
        Some(place) => place == at,
        None => false,
    }
}

/// Puts an item behind the others, and the place of its key into the table where it has none.
pub fn push<K: Eq + Hash + Drop, T: Drop>(
    items: &mut Vec<T>,
    table: &mut Table<K, u32>,
    key: K,
    item: T,
) -> Result<(), NoMemory>
    requires { length items.old.items < 2 ^ 32 }
    ensures items { items.new.items ≡ (if is_ok result then items.old.items ++ item ∷ [] else items.old.items) }
    ensures bound { length items.new.items < 2 ^ 32 }
    ensures table { (is_of : K → T → Bool) → ((q : K) → is_of q item ≡ K.eq key q) → IsFirstPlaces is_of items.old.items (get K.eq table.old) → IsFirstPlaces is_of items.new.items (get K.eq table.new) }
{
    let at = next_place(items)?;
    add(table, key, at)?;
    items.push_reserved(item);
    Ok(())
}

/// Puts the place behind the items into the table for a key that has none there, and tells whether it had none: then there
/// is room for its item. It looks the key up once, and makes room for a new one alone; where there is none, nothing has
/// changed. An entry is used up on each way, since of one that is let go it isn't known what the table has.
pub fn add_place<K: Eq + Hash + Drop, T>(
    items: &mut Vec<T>,
    table: &mut Table<K, u32>,
    key: K,
) -> Result<bool, NoMemory>
    ensures items { items.new.items ≡ items.old.items }
    ensures ok { IfOk result (EntersPlace K.eq (get K.eq table.old) (get K.eq table.new) key (length items.old.items)) }
    ensures room { IfOk result (λ is_new. IsTrue is_new → vec_len items.new < vec_capacity items.new) }
    ensures bound { IfOk result (λ is_new. IsTrue is_new → length items.old.items + 1 < 2 ^ 32) }
    ensures no_memory { OnErr result ((q : K) → get K.eq table.new q ≡ get K.eq table.old q) }
{
    match table.entry(key) {
        Ok(Entry::Occupied(entry)) => {
            let _place = entry.into_mut();
            Ok(false)
        }
        Ok(Entry::Vacant(entry)) => {
            let Ok(at) = next_place(items) else {
                let _key = entry.into_key();
                return Err(NoMemory);
            };
            entry.insert(at);
            Ok(true)
        }
        Err(_) => Err(NoMemory),
    }
}

/// The place behind the items, with room for one there.
fn next_place<T>(items: &mut Vec<T>) -> Result<u32, NoMemory>
    ensures items { items.new.items ≡ items.old.items }
    ensures ok { OnOk result (vec_len items.new < vec_capacity items.new) }
    ensures place { IfOk result (λ at. (at ≡ length items.old.items) × (at + 1 < 2 ^ 32)) }
{
    let at = items.len();
    if at >= MOST {
        return Err(NoMemory);
    }
    make_place(items)?;
    Ok(at as u32)
}

/// Puts the place of a key into the table, where it has none.
pub fn add<K: Eq + Hash + Drop>(table: &mut Table<K, u32>, key: K, at: u32) -> Result<(), NoMemory>
    ensures ok { OnOk result (AddsPlace K.eq (get K.eq table.old) (get K.eq table.new) key at) }
    ensures no_memory { OnErr result ((q : K) → get K.eq table.new q ≡ get K.eq table.old q) }
{
    match table.entry(key) {
        Ok(entry) => {
            entry.or_insert(at);
            Ok(())
        }
        Err(_) => Err(NoMemory),
    }
}
