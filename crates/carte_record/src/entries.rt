ghost use Rattle.std.specs.Prelude.{◌≡◌, ◌<◌, ◌^◌, ◌∷◌, ◌++◌, [], length, slice_get, option_copied, ◌==◌, filter, is_ok, take, map, IfOk, IfSome, if◌then◌else◌};
ghost use Rattle.std.specs.List.{IsDistinct};
ghost use Rattle.carte_codec.specs.Lengths.{IsLengthOf};
ghost use Rattle.carte_record.specs.Bodies.{spelled_entry};
ghost use Rattle.carte_name.specs.Names.{name_eq};
ghost use Rattle.carte_record.specs.Lookups.{first_entry, is_entry_of};
ghost use Rattle.carte_record.specs.Marked.{all_marked};
ghost use Rattle.carte_table.specs.Changes.{is_of_none};
ghost use Rattle.carte_value.specs.Lists.{Begins};
ghost use Rattle.carte_table.specs.Steps.{IsReady};
ghost use Rattle.carte_record.specs.Growth.{TakesEntries};

use crate::Entry;
use carte_table::{Firsts, NameTable, Plain};
use carte_value::{Name, Names, NoMemory, Seeded};
use std::alloc::Global;
use std::marker::Model;

/// A list of at most 2^32 - 1 entries, seen as these entries, in which a key is looked up at once.
#[derive(Drop)]
pub struct Entries {
    list: Firsts<Entry>,
}

impl Model for Entries {
    ghost use Rattle.std.specs.Prelude.{List};
    ghost use Rattle.carte_record.specs.declared.entry.Entry.{Entry};

    ghost Value = { List Entry };

    ghost view = { λ a. a.list };
}

impl Entries {
    /// The empty list, whose entries will come from `alloc`. It takes no memory.
    pub fn new(alloc: Global, hasher: Seeded) -> Entries
        ensures { result ≡ [] }
    {
        Entries {
            list: Firsts::new(alloc, hasher),
        }
    }

    /// Room for so many entries more at once, where it has few beside these.
    pub fn widen(&mut self, more: usize)
        ensures { self.new ≡ self.old }
    {
        self.list.widen(more);
    }

    /// How many entries there are.
    pub fn len(&self) -> usize
        ensures number { result ≡ length self.now }
        ensures bound { result < 2 ^ 32 }
    {
        self.list.len()
    }

    pub fn is_empty(&self) -> bool
        ensures { result ≡ (length self.now == 0) }
    {
        self.list.is_empty()
    }

    /// The entry at a place counted from 0, where the list is longer than that.
    pub fn get(&self, at: usize) -> Option<&Entry>
        ensures { option_copied result ≡ slice_get self.now at }
    {
        self.list.get(at)
    }

    /// The entries as a slice.
    pub fn as_slice(&self) -> &[Entry]
        ensures { result.now ≡ self.now }
    {
        self.list.as_slice()
    }

    /// The first entry of a key, where there is one. It takes no memory.
    pub fn find(&self, key: &Name) -> Option<&Entry>
        ensures { option_copied result ≡ first_entry self.now key.now }
    {
        self.list.find(key)
    }

    /// How many bytes the entries are spelled as, where that is known and no key comes twice. It takes no pass over them.
    pub fn length(&self) -> Option<u64>
        ensures length { IsLengthOf spelled_entry self.now result }
        ensures once { IfSome result (λ _. IsDistinct name_eq (map (λ e. e.key) self.now)) }
    {
        self.list.length()
    }

    /// Marks the first entry of each of these keys, one after the other, or takes its mark off.
    pub(crate) fn mark_each(&mut self, keys: &Names, stale: bool)
        ensures { self.new ≡ all_marked stale self.old keys.now }
    {
        self.list.mark_each(keys, stale);
    }

    /// Puts the entries of a later list behind these whose keys have none here, and gives back those that are left, which
    /// it then takes in without fail; where it has nothing and no key comes twice, it becomes that list. Where there is no
    /// room, some entries may stand there.
    pub(crate) fn make_ready(&mut self, later: Plain<Entry>) -> Result<Vec<Entry>, NoMemory>
        ensures ok { IfOk result (λ left. IsReady is_entry_of later self.old left.items self.new) }
        ensures front { Begins self.old self.new }
    {
        self.list.make_ready_plain(later)
    }

    /// Takes in what is left of a later list, each entry in the place of its key's first one, and marks entries stale.
    pub(crate) fn take_in(&mut self, left: Vec<Entry>, stale: &Names)
        ensures { TakesEntries stale.now left.items self.old self.new }
    {
        self.list.take_in(left);
        self.mark_each(stale, true);
    }

    /// Drops the entries behind the first `len`.
    pub(crate) fn truncate(&mut self, len: usize)
        ensures { self.new ≡ take len self.old }
    {
        self.list.truncate(len);
    }

    /// A second list of equal entries.
    pub fn copy(&self, alloc: Global) -> Result<Entries, NoMemory>
        ensures { IfOk result (λ copy. copy ≡ self.now) }
    {
        let list = self.list.copy(alloc)?;
        Ok(Entries { list })
    }

    /// A second list of equal entries, but for those of these keys.
    pub(crate) fn without(&self, alloc: Global, gone: &NameTable) -> Result<Entries, NoMemory>
        ensures { IfOk result (λ left. left ≡ filter (is_of_none (λ e. e.key) gone.now) self.now) }
    {
        let list = self.list.without(alloc, gone)?;
        Ok(Entries { list })
    }

    /// Puts an entry behind the others. Where there is no room for it, it is dropped and nothing has changed.
    pub fn push(&mut self, entry: Entry) -> Result<(), NoMemory>
        ensures { self.new ≡ (if is_ok result then self.old ++ entry ∷ [] else self.old) }
    {
        self.list.push(entry)
    }
}
