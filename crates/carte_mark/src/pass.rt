ghost use Rattle.std.specs.Prelude.{◌≡◌, ◌↔◌, ◌<◌, ◌+◌, ◌^◌, ℕ, true, List, Some, slice_get, IfOk, OnOk};
ghost use Rattle.carte_record.specs.Kept.{kept_view};
ghost use Rattle.carte_record.specs.declared.entry.Entry.{Entry as SomeEntry};
ghost use Rattle.carte_value.specs.Lists.{Begins};
ghost use Rattle.carte_mark.specs.Passes.{Passes};
ghost use Rattle.carte_mark.specs.Reached.{PutsMore, IsClosedAt, IsUser};

use crate::set::{holds, meets, put};
use carte_record::{Entry, Kept};
use carte_value::{Name, NoMemory, Numbering};

/// A pass over the entries before a place: puts the keys of those that need what is there. Tells the place behind the
/// last one whose key was put, or 0.
pub(crate) fn pass(kept: &Kept, end: usize, names: &mut Numbering) -> Result<usize, NoMemory>
    ensures { IfOk result (λ last. Passes kept.now end last names.old names.new) }
{
    let mut last = 0;
    for at in 0..end {
        last = pass_at(kept, at, last, names)?;
    }
    Ok(last)
}

fn pass_at(kept: &Kept, at: usize, last: usize, names: &mut Numbering) -> Result<usize, NoMemory>
    requires { at + 1 < 2 ^ 64 }
    ensures { IfOk result (λ last'. (ns : List (List ℕ)) → Passes kept.now at last ns names.old → Passes kept.now (at + 1) last' ns names.new) }
{
    let more = put_user_at(kept, at, names)?;
    if more {
        return Ok(at + 1);
    }
    Ok(last)
}

fn put_user_at(kept: &Kept, at: usize, names: &mut Numbering) -> Result<bool, NoMemory>
    ensures puts { IfOk result (PutsMore (kept_view kept.now) names.old names.new) }
    ensures closed { OnOk result ((e : SomeEntry) → slice_get kept.now.entries at ≡ Some e → (kept_view kept.now).entries e.key ≡ Some e
        → IsClosedAt (kept_view kept.now) names.new e.key) }
{
    match kept.entries.get(at) {
        Some(entry) => put_user(kept, entry, names),
        None => Ok(false),
    }
}

fn put_user(kept: &Kept, entry: &Entry, names: &mut Numbering) -> Result<bool, NoMemory>
    ensures puts { IfOk result (PutsMore (kept_view kept.now) names.old names.new) }
    ensures closed { OnOk result ((kept_view kept.now).entries entry.now.key ≡ Some entry.now → IsClosedAt (kept_view kept.now) names.new entry.now.key) }
{
    if !meets(&entry.needs, names) {
        return Ok(false);
    }
    if holds(names, &entry.key) {
        return Ok(false);
    }
    put_key(kept, &entry.key, names)
}

/// Puts a key whose entry needs what is there. A key may have several entries, and the first one counts.
pub(crate) fn put_key(kept: &Kept, key: &Name, names: &mut Numbering) -> Result<bool, NoMemory>
    ensures front { Begins names.old names.new }
    ensures puts { IfOk result (PutsMore (kept_view kept.now) names.old names.new) }
    ensures closed { OnOk result (IsClosedAt (kept_view kept.now) names.new key.now) }
{
    if needs_one(kept, key, names) {
        put(key, names)?;
        return Ok(true);
    }
    Ok(false)
}

fn needs_one(kept: &Kept, key: &Name, names: &Numbering) -> bool
    ensures { (result ≡ true) ↔ IsUser (kept_view kept.now) names.now key.now }
{
    match kept.entries.find(key) {
        Some(entry) => meets(&entry.needs, names),
        None => false,
    }
}
