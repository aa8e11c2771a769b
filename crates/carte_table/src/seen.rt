ghost use Rattle.std.specs.Prelude.{◌≡◌, ◌<◌, ◌^◌, ◌∷◌, ◌++◌, [], length, slice_get, option_copied, ◌==◌, filter, is_ok, map, take, IfOk, IfSome, if◌then◌else◌};
ghost use Rattle.std.specs.List.{IsDistinct};
ghost use Rattle.carte_name.specs.Names.{name_eq};
ghost use Rattle.carte_codec.specs.Lengths.{IsLengthOf};
ghost use Rattle.carte_codec.specs.Parts.{spelled_link};
ghost use Rattle.carte_table.specs.Changes.{is_of_none};
ghost use Rattle.carte_table.specs.Lookups.{first_link, is_link_of};
ghost use Rattle.carte_value.specs.Lists.{Begins};
ghost use Rattle.carte_table.specs.Steps.{IsReady, Replaces};

use crate::{Firsts, Keyed, NameTable};
use carte_value::{Digest, Link, Name, NoMemory, Seeded};
use std::alloc::Global;
use std::marker::Model;

impl Keyed for Link {
    ghost key_of = { λ l. l.name };

    fn key(&self) -> &Name {
        &self.name
    }
}

/// Names with the digests that they were seen with: a list of at most 2^32 - 1 links, seen as these links, in which a
/// name is looked up at once.
#[derive(Drop)]
pub struct Seen {
    links: Firsts<Link>,
}

impl Model for Seen {
    ghost use Rattle.std.specs.Prelude.{List};
    ghost use Rattle.carte_value.specs.declared.link.Link.{Link};

    ghost Value = { List Link };

    ghost view = { λ a. a.links };
}

impl Seen {
    /// The empty list, whose links will come from `alloc`. It takes no memory.
    pub fn new(alloc: Global, hasher: Seeded) -> Seen
        ensures { result ≡ [] }
    {
        Seen {
            links: Firsts::new(alloc, hasher),
        }
    }

    /// These links, with the places of their names in a table. How many bytes they take isn't counted until they become
    /// another list's.
    pub fn with_places(alloc: Global, links: Vec<Link>, hasher: Seeded) -> Result<Seen, NoMemory>
        requires { length links.items < 2 ^ 32 }
        ensures { IfOk result (λ list. list ≡ links.items) }
    {
        let links = Firsts::with_places(alloc, links, hasher)?;
        Ok(Seen { links })
    }

    /// Where its memory comes from.
    pub fn allocator(&self) -> Global {
        self.links.allocator()
    }

    /// What its table is made with.
    pub fn hasher(&self) -> Seeded {
        self.links.hasher()
    }

    /// How many links there are.
    pub fn len(&self) -> usize
        ensures number { result ≡ length self.now }
        ensures bound { result < 2 ^ 32 }
    {
        self.links.len()
    }

    pub fn is_empty(&self) -> bool
        ensures { result ≡ (length self.now == 0) }
    {
        self.links.is_empty()
    }

    /// The link at a place counted from 0, where the list is longer than that.
    pub fn get(&self, at: usize) -> Option<&Link>
        ensures { option_copied result ≡ slice_get self.now at }
    {
        self.links.get(at)
    }

    /// The links as a slice.
    pub fn as_slice(&self) -> &[Link]
        ensures { result.now ≡ self.now }
    {
        self.links.as_slice()
    }

    /// The digest of the first link of a name, where there is one. It takes no memory.
    pub fn find(&self, name: &Name) -> Option<&Digest>
        ensures { option_copied result ≡ first_link self.now name.now }
    {
        match self.links.find(name) {
            Some(link) => Some(&link.digest),
            None => None,
        }
    }

    /// How many bytes the links are spelled as, where that is known and no name comes twice. It takes no pass over them.
    pub fn length(&self) -> Option<u64>
        ensures length { IsLengthOf spelled_link self.now result }
        ensures once { IfSome result (λ _. IsDistinct name_eq (map (λ l. l.name) self.now)) }
    {
        self.links.length()
    }

    /// Puts the links of a later list behind these whose names have none here, and gives back those that are left, which it
    /// then takes in without fail; where it has nothing and no name comes twice, it becomes that list. Where there is no
    /// room, some links may stand there.
    pub fn make_ready(&mut self, later: Seen) -> Result<Vec<Link>, NoMemory>
        ensures ok { IfOk result (λ left. IsReady is_link_of later self.old left.items self.new) }
        ensures front { Begins self.old self.new }
    {
        self.links.make_ready(later.links)
    }

    /// Takes in what is left of a later list: each link is put in the place of the first one of its name, where there is one.
    pub fn take_in(&mut self, left: Vec<Link>)
        ensures { Replaces is_link_of left.items self.old self.new }
    {
        self.links.take_in(left);
    }

    /// Drops the links behind the first `len`.
    pub fn truncate(&mut self, len: usize)
        ensures { self.new ≡ take len self.old }
    {
        self.links.truncate(len);
    }

    /// A second list of equal links.
    pub fn copy(&self, alloc: Global) -> Result<Seen, NoMemory>
        ensures { IfOk result (λ copy. copy ≡ self.now) }
    {
        let links = self.links.copy(alloc)?;
        Ok(Seen { links })
    }

    /// A second list of equal links, but for those of these names.
    pub fn without(&self, alloc: Global, gone: &NameTable) -> Result<Seen, NoMemory>
        ensures { IfOk result (λ left. left ≡ filter (is_of_none (λ l. l.name) gone.now) self.now) }
    {
        let links = self.links.without(alloc, gone)?;
        Ok(Seen { links })
    }

    /// Puts a link behind the others. Where there is no room for it, it is dropped and nothing has changed.
    pub fn push(&mut self, link: Link) -> Result<(), NoMemory>
        ensures { self.new ≡ (if is_ok result then self.old ++ link ∷ [] else self.old) }
    {
        self.links.push(link)
    }
}
