ghost use Rattle.std.specs.Prelude.{◌≡◌, ◌<◌, ◌++◌, ◌∷◌, [], None, true, IfOk, OnOk, option_copied, vec_len};
ghost use Rattle.indexmap.specs.IndexMap.{index_map_len, insert_entry, spare};
ghost use Rattle.carte_name.specs.Names.{name_eq};
ghost use Rattle.carte_value.specs.Once.{answer_in};
ghost use Rattle.carte_effect.specs.Outcomes.{links_of};
ghost use Rattle.carte_task.specs.Keeping.{are_few};

use crate::Hashed;
use carte_value::{Link, Links, Name, NoMemory, Seeded};
use indexmap::IndexMap;
use std::alloc::Global;
use std::marker::Model;

/// How many answers are searched one after the other.
const FEW: usize = 8;

/// Answers for names, in the order in which they came. The first few are searched one after the other, which costs less than
/// an index for them would. Those behind them have one.
#[derive(Drop)]
pub(crate) struct Known {
    few: Vec<(Name, Hashed)>,
    more: IndexMap<Name, Hashed, Seeded>,
}

impl Model for Known {
    ghost use Rattle.std.specs.Prelude.{◌++◌, vec_len, vec_capacity};
    ghost use Rattle.indexmap.specs.IndexMap.{index_map_len, spare};
    ghost use Rattle.carte_task.specs.Keeping.{Kept, has_room};

    ghost Value = { Kept };

    ghost view = { λ k. record { entries = k.few.items ++ k.more.entries; room = has_room (vec_len k.few) (vec_capacity k.few) (index_map_len k.more) (spare k.more) } };
}

// Whether the next answer is one of the first few.
fn are_few(few: &Vec<(Name, Hashed)>, more: &IndexMap<Name, Hashed, Seeded>) -> bool
    ensures { result ≡ are_few (vec_len few.now) (index_map_len more.now) }
{
    few.len() < FEW && more.len() == 0
}

impl Known {
    /// No answers. They take no memory.
    pub(crate) fn new(alloc: Global, hasher: Seeded) -> Known
        ensures { result.entries ≡ [] }
    {
        Known {
            few: Vec::new(alloc),
            more: IndexMap::with_hasher(alloc, hasher),
        }
    }

    /// The answer for a name.
    #[inline(always)]
    pub(crate) fn find(&self, name: &Name) -> Option<&Hashed>
        ensures { option_copied result ≡ answer_in self.now.entries name.now }
    {
        for (own, value) in self.few.iter() {
            if name == own {
                return Some(value);
            }
        }
        if self.more.len() == 0 {
            return None;
        }
        find_more(&self.more, name)
    }

    /// Makes room for one answer more.
    pub(crate) fn reserve(&mut self) -> Result<(), NoMemory>
        ensures entries { self.new.entries ≡ self.old.entries }
        ensures room { OnOk result (self.new.room ≡ true) }
    {
        if are_few(&self.few, &self.more) {
            self.few.reserve(1)?;
        } else {
            self.more.reserve(1)?;
        }
        Ok(())
    }

    /// Puts the answer for a name behind the others.
    #[inline(always)]
    pub(crate) fn put(&mut self, name: Name, value: Hashed)
        requires room { self.old.room ≡ true }
        requires new { answer_in self.old.entries name ≡ None }
        ensures { self.new.entries ≡ self.old.entries ++ (name, value) ∷ [] }
    {
        if are_few(&self.few, &self.more) {
            self.few.push_reserved((name, value));
            return;
        }
        put_more(&mut self.more, name, value);
    }

    /// The names that were asked, in order, with the digests of their values.
    pub(crate) fn links(&self, alloc: Global) -> Result<Links, NoMemory>
        ensures { IfOk result (λ links. links ≡ links_of self.now.entries) }
    {
        let count = self.few.len().saturating_add(self.more.len());
        let mut links = Links::with_room(alloc, count)?;
        link_few(alloc, &self.few, &mut links)?;
        link_more(alloc, &self.more, &mut links)?;
        Ok(links)
    }
}

// What follows the first few answers stands apart, since few runs come to it, and the way there would make each of their
// look-ups dearer.

#[inline(never)]
fn find_more<'a>(more: &'a IndexMap<Name, Hashed, Seeded>, name: &Name) -> Option<&'a Hashed>
    ensures { option_copied result ≡ answer_in more.now.entries name.now }
{
    more.get(name)
}

#[inline(never)]
fn put_more(more: &mut IndexMap<Name, Hashed, Seeded>, name: Name, value: Hashed)
    requires { 0 < spare more.old }
    ensures { more.new.entries ≡ insert_entry name_eq more.old.entries name value }
{
    match more.insert(name, value) {
        Ok(_) => {}
        Err(_) => unreachable!(),
    }
}

fn link_few(alloc: Global, few: &Vec<(Name, Hashed)>, links: &mut Links) -> Result<(), NoMemory>
    ensures { OnOk result (links.new ≡ links.old ++ links_of few.now.items) }
{
    for (name, value) in few.iter() {
        link(alloc, name, value, links)?;
    }
    Ok(())
}

fn link_more(
    alloc: Global,
    more: &IndexMap<Name, Hashed, Seeded>,
    links: &mut Links,
) -> Result<(), NoMemory>
    ensures { OnOk result (links.new ≡ links.old ++ links_of more.now.entries) }
{
    for at in 0..more.len() {
        let Some((name, value)) = more.get_index(at) else {
            unreachable!()
        };
        link(alloc, name, value, links)?;
    }
    Ok(())
}

fn link(alloc: Global, name: &Name, value: &Hashed, links: &mut Links) -> Result<(), NoMemory>
    ensures { OnOk result (links.new ≡ links.old ++ links_of ((name.now, value.now) ∷ [])) }
{
    links.push(Link {
        name: name.copy(alloc)?,
        digest: value.digest(),
    })
}
