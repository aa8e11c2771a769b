ghost use Rattle.std.specs.Prelude.{◌≡◌, ◌<◌, ◌∷◌, [], length, slice_get, Some, ℕ, List, OnOk, IfOk};
ghost use Rattle.carte_value.specs.Lists.{Begins};
ghost use Rattle.carte_mark.specs.Puts.{put_all};
ghost use Rattle.carte_record.specs.Kept.{kept_view};
ghost use Rattle.carte_mark.specs.Passes.{AreReached};
ghost use Rattle.carte_mark.specs.Tables.{HasUsers, PutsUsers, names_at, users_by};

use crate::pass::put_key;
use crate::set::{holds, put};
use crate::users::{Users, table};
use carte_record::Kept;
use carte_value::{Name, Names, NoMemory, Numbering};
use std::alloc::Global;

/// These names and all keys that lead to one of them, over a table of the keys that need each name.
pub(crate) fn walk(alloc: Global, kept: &Kept, names: Numbering) -> Result<Numbering, NoMemory>
    ensures { IfOk result (λ reached. AreReached kept.now names reached) }
{
    let users = table(alloc, &kept.entries, names.hasher())?;
    walk_over(kept, &users, names)
}

/// The same over a table that has at least the keys whose entries need each name.
pub(crate) fn walk_over(kept: &Kept, users: &Users, names: Numbering) -> Result<Numbering, NoMemory>
    ensures { IfOk result (λ reached. HasUsers (kept_view kept.now) (users_by users.now) → AreReached kept.now names reached) }
{
    let mut reached = names;
    let mut next = 0;
    while next < reached.as_slice().len() {
        put_users_at(kept, users, next, &mut reached)?;
        next += 1;
    }
    Ok(reached)
}

// The name is looked up once, and its users are walked by number.
fn put_users_at(
    kept: &Kept,
    users: &Users,
    at: usize,
    reached: &mut Numbering,
) -> Result<(), NoMemory>
    requires { at < length reached.old }
    ensures { OnOk result ((q : List ℕ) → slice_get reached.old at ≡ Some q → PutsUsers (kept_view kept.now) (users_by users.now q) reached.old reached.new) }
{
    let numbers = users.numbers(&reached.as_slice()[at]);
    put_those(kept, users, numbers, reached)
}

// Those of the keys with these numbers whose entries need what is there.
fn put_those(
    kept: &Kept,
    users: &Users,
    numbers: &[u32],
    reached: &mut Numbering,
) -> Result<(), NoMemory>
    ensures { OnOk result (PutsUsers (kept_view kept.now) (names_at users.now.names numbers.now) reached.old reached.new) }
{
    for number in numbers {
        put_numbered(kept, users, *number, reached)?;
    }
    Ok(())
}

fn put_numbered(
    kept: &Kept,
    users: &Users,
    number: u32,
    reached: &mut Numbering,
) -> Result<(), NoMemory>
    ensures { OnOk result (PutsUsers (kept_view kept.now) (names_at users.now.names (number ∷ [])) reached.old reached.new) }
{
    match users.key(number) {
        Some(key) => put_that(kept, key, reached),
        None => Ok(()),
    }
}

fn put_that(kept: &Kept, key: &Name, reached: &mut Numbering) -> Result<(), NoMemory>
    ensures { OnOk result (PutsUsers (kept_view kept.now) (key.now ∷ []) reached.old reached.new) }
{
    if holds(reached, key) {
        return Ok(());
    }
    put_key(kept, key, reached)?;
    Ok(())
}

/// Puts each of these names into a set, behind the others where it isn't there. Where there is no memory, some may stand there.
pub fn put_each(keys: &Names, reached: &mut Numbering) -> Result<(), NoMemory>
    ensures front { Begins reached.old reached.new }
    ensures put { OnOk result (reached.new ≡ put_all reached.old keys.now) }
{
    for key in keys.as_slice() {
        put(key, reached)?;
    }
    Ok(())
}
