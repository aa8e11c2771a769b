ghost use Rattle.std.specs.Prelude.{◌≡◌, ◌≤◌, OnOk, IfOk, [], length, map, option_copied, slice_get, vec_items, ℕ};
ghost use Rattle.carte_value.specs.Numbers.{number_of};
ghost use Rattle.carte_value.specs.Truths.{Among};
ghost use Rattle.carte_mark.specs.Tables.{AddsKey, AddsFor, AreUsers, Fills, Needs, no_users, numbers_at, users_by};

use carte_record::Entries;
use carte_value::{Name, Names, NoMemory, Numbering, Seeded};
use std::alloc::Global;
use std::marker::Model;

/// Of each name the keys whose entries need it. Names and keys have numbers in one numbering, and the table is one of numbers:
/// no name stands in it twice, and each is looked up once where its users are walked.
#[derive(Drop)]
pub struct Users {
    names: Numbering,
    // At the number of a name those of the keys, in the order in which they were added. There may be fewer lists than names.
    users: Vec<Vec<u32>>,
}

impl Model for Users {
    ghost use Rattle.std.specs.Prelude.{map, vec_items};
    ghost use Rattle.carte_mark.specs.Tables.{AreWithin, Numbered};

    ghost Value = { Numbered };

    ghost view = { λ u. record { names = u.names; users = map vec_items u.users.items } };

    ghost invariant = { λ u. AreWithin (record { names = u.names; users = map vec_items u.users.items }) };
}

impl Users {
    /// A table without a key. It takes no memory.
    pub(crate) fn new(alloc: Global, hasher: Seeded) -> Users
        ensures { result ≡ no_users }
    {
        Users {
            names: Numbering::new(alloc, hasher),
            users: Vec::new(alloc),
        }
    }

    /// The numbers of the keys that need the name.
    pub(crate) fn numbers(&self, name: &Name) -> &[u32]
        ensures { result.now ≡ numbers_at self.now.users (number_of self.now.names name.now) }
    {
        match self.names.find(name) {
            Some(number) => match self.users.get(number as usize) {
                Some(numbers) => numbers.as_slice(),
                None => &[],
            },
            None => &[],
        }
    }

    /// The key that has a number.
    pub(crate) fn key(&self, number: u32) -> Option<&Name>
        ensures { option_copied result ≡ slice_get self.now.names number }
    {
        self.names.name(number)
    }

    fn add(&mut self, alloc: Global, name: &Name, key: &Name) -> Result<(), NoMemory>
        ensures { OnOk result (AddsKey (users_by self.old) (users_by self.new) name.now key.now) }
    {
        let at = self.names.give(name)?;
        let number = self.names.give(key)?;
        fill(alloc, self.names.as_slice().len(), &mut self.users)?;
        self.users[at as usize].push(number)?;
        Ok(())
    }
}

// Empty lists at the end, so that there are so many.
fn fill(alloc: Global, count: usize, lists: &mut Vec<Vec<u32>>) -> Result<(), NoMemory>
    ensures fills { Fills count (map vec_items lists.old.items) (map vec_items lists.new.items) }
    ensures filled { OnOk result (count ≤ length lists.new.items) }
{
    while lists.len() < count {
        lists.push(Vec::new(alloc))?;
    }
    Ok(())
}

/// The table of these entries.
pub(crate) fn table(alloc: Global, entries: &Entries, hasher: Seeded) -> Result<Users, NoMemory>
    ensures { IfOk result (λ users. AreUsers entries.now (users_by users)) }
{
    let mut users = Users::new(alloc, hasher);
    for entry in entries.as_slice() {
        add_entry(alloc, entries, &entry.key, &mut users)?;
    }
    Ok(users)
}

fn add_entry(
    alloc: Global,
    entries: &Entries,
    key: &Name,
    users: &mut Users,
) -> Result<(), NoMemory>
    ensures { OnOk result (AddsFor (users_by users.old) (users_by users.new) key.now (Needs entries.now key.now)) }
{
    match entries.find(key) {
        Some(entry) => add_all(alloc, &entry.needs, key, users),
        None => Ok(()),
    }
}

/// Adds the key to those that need these names.
pub(crate) fn add_all(
    alloc: Global,
    names: &Names,
    key: &Name,
    users: &mut Users,
) -> Result<(), NoMemory>
    ensures { OnOk result (AddsFor (users_by users.old) (users_by users.new) key.now (Among names.now)) }
{
    for name in names.as_slice() {
        users.add(alloc, name, key)?;
    }
    Ok(())
}
