ghost use Rattle.std.specs.Prelude.{◌≡◌, ◌↔◌, ℕ, List, true, IfOk, OnOk};
ghost use Rattle.carte_book.specs.Book.{Book as SomeBook, book_view};
ghost use Rattle.carte_record.specs.Folds.{applied};
ghost use Rattle.carte_record.specs.Kept.{SomeKept, kept_view};
ghost use Rattle.carte_sound.specs.Marks.{IsChanged};
ghost use Rattle.carte_mark.specs.Bases.{IsBegun};
ghost use Rattle.carte_mark.specs.Marking.{ArePicked, Pushes};
ghost use Rattle.carte_mark.specs.Reached.{AreChanged};
ghost use Rattle.carte_mark.specs.Tables.{HasUsers, users_by};
ghost use Rattle.carte_mark.specs.Watching.{IsWatched, Learns, LearnsEntries, LearnsEntry, LearnsSeen, NeedsSame, SameBut, Watches};

use crate::base::Begun;
use crate::changed::{changed, has_changed};
use crate::gone::gone;
use crate::marking::{listed, marks_of};
use crate::set::put;
use crate::tasks::is_other;
use crate::users::{Users, add_all, table};
use crate::walk::{put_each, walk_over};
use carte_book::Book;
use carte_effect::Digests;
use carte_record::{Batch, Entry, Kept};
use carte_value::{Name, Names, NoMemory, Numbering};
use std::alloc::Global;

/// How many comparisons of needs a walk may make for keys that need a name no more.
const MANY: usize = 1 << 20;

/// What is known between two builds, so that the next one looks at what may have changed and not at all that is kept: names
/// among which are all that have changed, and of each name keys among which are all whose entries need it.
#[derive(Drop)]
pub struct Watch {
    suspects: Numbering,
    users: Users,
    // What a walk may cost for keys that need a name no more.
    worn: usize,
}

impl Watch {
    /// Watches what is kept, beside the book. It takes a pass over all of it.
    pub fn new(alloc: Global, kept: &Kept, book: &Book) -> Result<Watch, NoMemory>
        ensures { IfOk result (Watches (kept_view kept.now) (book_view book.now)) }
    {
        let suspects = changed(alloc, kept, book)?;
        let users = table(alloc, &kept.entries, book.hasher())?;
        Ok(Watch {
            suspects,
            users,
            worn: 0,
        })
    }

    /// Finds what a build begins with, as `begin` does, and the watch goes on.
    pub fn begin(self, alloc: Global, kept: &Kept, book: &Book) -> Result<(Begun, Watch), NoMemory>
        ensures begun { IfOk result (λ r. Watches (kept_view kept.now) (book_view book.now) self → IsBegun (kept_view kept.now) (book_view book.now) r.0) }
        ensures watches { IfOk result (λ r. Watches (kept_view kept.now) (book_view book.now) self → Watches (kept_view kept.now) (book_view book.now) r.1) }
    {
        let Watch {
            suspects,
            users,
            worn,
        } = self;
        let changed = changed_among(alloc, kept, book, &suspects)?;
        let begun = begun_over(alloc, kept, book, &changed, &users)?;
        let mut suspects = Numbering::new(alloc, book.hasher());
        put_each(&changed, &mut suspects)?;
        let watch = Watch {
            suspects,
            users,
            worn,
        };
        Ok((begun, watch))
    }

    /// The name may have another value from now on.
    pub fn suspect(self, alloc: Global, name: &Name) -> Result<Watch, NoMemory>
        ensures { IfOk result (λ watch. (K : SomeKept) (b c : SomeBook) → SameBut name.now b c → Watches K b self → Watches K c watch) }
    {
        let mut watch = self;
        put(name, &mut watch.suspects)?;
        Ok(watch)
    }

    /// Learns of batches that are about to be put into what is kept. None where so many entries have other needs than before
    /// that a walk could take long: then it is made anew.
    pub fn learn(
        self,
        alloc: Global,
        kept: &Kept,
        batches: &[Batch],
    ) -> Result<Option<Watch>, NoMemory>
        ensures { IfOk result (λ watch. (b : SomeBook) → Watches (kept_view kept.now) b self → IsWatched (applied (kept_view kept.now) batches.now) b watch) }
    {
        let mut watch = self;
        for batch in batches {
            watch.learn_one(alloc, kept, batch)?;
        }
        if watch.worn > MANY {
            return Ok(None);
        }
        Ok(Some(watch))
    }

    fn learn_one(&mut self, alloc: Global, kept: &Kept, batch: &Batch) -> Result<(), NoMemory>
        ensures { OnOk result (Learns (kept_view kept.now) batch.now self.old self.new) }
    {
        self.learn_seen(batch)?;
        self.learn_entries(alloc, kept, batch)
    }

    fn learn_seen(&mut self, batch: &Batch) -> Result<(), NoMemory>
        ensures { OnOk result (LearnsSeen batch.now.seen self.old self.new) }
    {
        for link in batch.seen.as_slice() {
            put(&link.name, &mut self.suspects)?;
        }
        Ok(())
    }

    fn learn_entries(&mut self, alloc: Global, kept: &Kept, batch: &Batch) -> Result<(), NoMemory>
        ensures { OnOk result (LearnsEntries (kept_view kept.now) batch.now.entries self.old self.new) }
    {
        for entry in batch.entries.as_slice() {
            self.learn_entry(alloc, kept, entry)?;
        }
        Ok(())
    }

    fn learn_entry(&mut self, alloc: Global, kept: &Kept, entry: &Entry) -> Result<(), NoMemory>
        ensures { OnOk result (LearnsEntry (kept_view kept.now) entry.now self.old self.new) }
    {
        put(&entry.key, &mut self.suspects)?;
        if has_needs(kept, entry) {
            return Ok(());
        }
        self.worn = self.worn.saturating_add(wear_of(kept, entry));
        add_all(alloc, &entry.needs, &entry.key, &mut self.users)
    }
}

// Whether the entry of its key needs the same names.
fn has_needs(kept: &Kept, entry: &Entry) -> bool
    ensures { result ≡ true → NeedsSame (kept_view kept.now) entry.now }
{
    match kept.entries.find(&entry.key) {
        Some(old) => old.needs.as_slice() == entry.needs.as_slice(),
        None => false,
    }
}

// A walk that comes to a name which the key needs no more looks whether it needs another one that is reached.
fn wear_of(kept: &Kept, entry: &Entry) -> usize {
    match kept.entries.find(&entry.key) {
        Some(old) => old.needs.len().saturating_mul(entry.needs.len()),
        None => 0,
    }
}

// Those of the names that have changed.
fn changed_among(
    alloc: Global,
    kept: &Kept,
    book: &Book,
    suspects: &Numbering,
) -> Result<Names, NoMemory>
    ensures { IfOk result (ArePicked (IsChanged (kept_view kept.now) (book_view book.now)) suspects.now) }
{
    let mut digests = Digests::new(alloc, book.hasher());
    let mut names = Vec::new(alloc);
    for name in suspects.as_slice() {
        push_changed(alloc, kept, book, name, &mut digests, &mut names)?;
    }
    listed(alloc, names)
}

fn push_changed(
    alloc: Global,
    kept: &Kept,
    book: &Book,
    name: &Name,
    digests: &mut Digests,
    names: &mut Vec<Name>,
) -> Result<(), NoMemory>
    ensures { OnOk result (Pushes (IsChanged (kept_view kept.now) (book_view book.now)) names.old.items names.new.items name.now) }
{
    let is_changed = is_changed(alloc, kept, book, name, digests)?;
    if is_changed {
        names.push(name.copy(alloc)?)?;
    }
    Ok(())
}

fn is_changed(
    alloc: Global,
    kept: &Kept,
    book: &Book,
    name: &Name,
    digests: &mut Digests,
) -> Result<bool, NoMemory>
    ensures { IfOk result (λ t. (t ≡ true) ↔ IsChanged (kept_view kept.now) (book_view book.now) name.now) }
{
    if has_changed(&kept.seen, book, name, digests) {
        return Ok(true);
    }
    let task = book.task_digest(alloc, name)?;
    Ok(is_other(&kept.entries, name, &task))
}

// What a build begins with where just these names have changed.
fn begun_over(
    alloc: Global,
    kept: &Kept,
    book: &Book,
    changed: &Names,
    users: &Users,
) -> Result<Begun, NoMemory>
    ensures { IfOk result (λ begun. AreChanged (kept_view kept.now) (book_view book.now) changed.now → HasUsers (kept_view kept.now) (users_by users.now) → IsBegun (kept_view kept.now) (book_view book.now) begun) }
{
    let mut names = Numbering::new(alloc, book.hasher());
    put_each(changed, &mut names)?;
    let gone = gone(alloc, kept, book, &names)?;
    let reached = walk_over(kept, users, names)?;
    let marks = marks_of(alloc, kept, &reached)?;
    Ok(Begun { marks, gone })
}
