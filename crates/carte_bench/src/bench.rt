ghost use Rattle.std.specs.Prelude.{◌≡◌, true, Some, None, IsSome, IsTrue, OnOk, OnErr, IfOk};
ghost use Rattle.std.specs.HashMap.{get};
ghost use Rattle.carte_name.specs.Names.{name_eq};
ghost use Rattle.carte_book.specs.Book.{book_view, content};
ghost use Rattle.carte_book.specs.Needs.{IsRule};
ghost use Rattle.carte_bench.specs.Spots.{PutAt, IsSame, Takes, TakenOut, HasStopped, Renews, job_in, is_ready, place_of, slot_after};
ghost use Rattle.carte_bench.specs.Rules.{is_rule, AreRules, AreRules-prop};
ghost use Rattle.carte_bench.specs.declared.slot.Slot.TheVariants as slot;

use crate::{Place, Slot};
use carte_book::{Book, Looked};
use carte_effect::{Digests, Job, Made, Stuck};
use carte_value::{Name, NoMemory, Seeded};
use indexmap::IndexMap;
use std::alloc::Global;
use std::mem;

/// The jobs of a build, what is done, and who waits for whom. A scheduler takes jobs that are ready, drives each over the
/// bench, and puts it back with what it came to.
#[derive(Drop)]
pub struct Bench<'b, J> {
    pub(crate) book: &'b Book,
    pub(crate) alloc: Global,
    pub(crate) slots: IndexMap<Name, Slot<J>, Seeded>,
    pub(crate) digests: Digests,
    ghost rules: { AreRules (book_view book.now) (get name_eq slots) } by { AreRules-prop (book_view book.now) (get name_eq slots) },
}

impl<'b, J: Job + Drop> Bench<'b, J> {
    ghost use Rattle.carte_bench.specs.Held.{spots_of, book_of, IsAt};

    /// A bench on which nothing was demanded. It takes no memory.
    pub fn new(alloc: Global, book: &'b Book) -> Bench<'b, J>
        ensures empty { IsSame (λ q. None) (spots_of result) }
        ensures book { book_of result ≡ book_view book.now }
    {
        let hasher = book.hasher();
        Bench {
            book,
            alloc,
            slots: IndexMap::with_hasher(alloc, hasher),
            digests: Digests::new(alloc, hasher),
        }
    }

    /// Whether a name is a rule of the book.
    pub fn has_rule(&self, name: &Name) -> bool
        ensures { result ≡ is_rule (content (book_of self.now) name.now) }
    {
        matches!(self.book.lookup(name), Looked::Rule(_))
    }

    /// Puts a job on the bench, and tells its place there: a turn of a name that has it as its hint makes no look-up.
    /// The job's key is a rule that the bench doesn't know. Where there is no memory, or the key is no rule of the book, the
    /// job is dropped.
    pub fn demand(&mut self, job: J) -> Result<usize, NoMemory>
        requires unknown { spots_of self.old (J.name job) ≡ None }
        ensures demanded { OnOk result (PutAt (spots_of self.old) (spots_of self.new) (J.name job) (slot.Ready job)) }
        ensures refused { OnErr result (IsSame (spots_of self.old) (spots_of self.new)) }
        ensures place { IfOk result (IsAt self.new (J.name job)) }
        ensures book { book_of self.new ≡ book_of self.old }
    {
        if self.has_rule(job.key()) {
            self.demand_rule(job)
        } else {
            Err(NoMemory)
        }
    }

    /// The same, where it is known that the key is a rule of the book, which isn't asked for it.
    pub fn demand_rule(&mut self, job: J) -> Result<usize, NoMemory>
        requires unknown { spots_of self.old (J.name job) ≡ None }
        requires rule { IsRule (book_of self.old) (J.name job) }
        ensures demanded { OnOk result (PutAt (spots_of self.old) (spots_of self.new) (J.name job) (slot.Ready job)) }
        ensures refused { OnErr result (IsSame (spots_of self.old) (spots_of self.new)) }
        ensures place { IfOk result (IsAt self.new (J.name job)) }
        ensures book { book_of self.new ≡ book_of self.old }
    {
        let name = job.key().copy(self.alloc)?;
        let at = self.slots.len();
        match self.slots.insert(name, Slot::Ready(job)) {
            Ok(_) => Ok(at),
            Err(_) => Err(NoMemory),
        }
    }

    /// Where a name stands.
    pub fn place(&self, alloc: Global, name: &Name) -> Result<Place, NoMemory>
        ensures { IfOk result (λ p. p ≡ place_of (spots_of self.now) (spots_of self.now name.now)) }
    {
        match self.slots.get(name) {
            None => Ok(Place::Unknown),
            Some(Slot::Ready(_)) => Ok(Place::Ready),
            Some(Slot::Out) => Ok(Place::Out),
            Some(Slot::Done(_)) => Ok(Place::Done),
            Some(Slot::Stopped(_, at)) => {
                if self.is_done(at) {
                    Ok(Place::Ready)
                } else {
                    Ok(Place::WaitsFor(at.copy(alloc)?))
                }
            }
        }
    }

    /// Takes a job that is ready: one that wasn't driven yet, or whose stop is done by now.
    pub fn take(&mut self, name: &Name) -> Option<J>
        ensures takes { Takes (spots_of self.old) (spots_of self.new) name.now result }
        ensures book { book_of self.new ≡ book_of self.old }
    {
        match self.take_slot(name) {
            Some(Slot::Ready(job)) => Some(job),
            Some(Slot::Stopped(job, at)) => {
                if self.is_done(&at) {
                    return Some(job);
                }
                self.put_slot(name, Slot::Stopped(job, at));
                None
            }
            Some(Slot::Done(made)) => {
                self.put_slot(name, Slot::Done(made));
                None
            }
            Some(Slot::Out) | None => None,
        }
    }

    // The place of a name that was demanded, by which the steps of a turn find its slot without a look-up each. There is
    // none at all where the name's hint is its place.
    pub(crate) fn find(&self, name: &Name) -> usize
        requires known { IsSome (spots_of self.now name.now) }
        ensures { IsAt self.now name.now result }
    {
        let hint = name.hint();
        if self.is_at(name, hint) {
            return hint;
        }
        match self.slots.get_full(name) {
            Some((at, held, slot)) => at,
            None => unreachable!(),
        }
    }

    // Whether a name stands at a place.
    fn is_at(&self, name: &Name, at: usize) -> bool
        ensures { IsTrue result → IsAt self.now name.now at }
    {
        match self.slots.get_index(at) {
            Some((held, _)) => held == name,
            None => false,
        }
    }

    // Puts something at the place of a name. What stood there is given out.
    pub(crate) fn swap(&mut self, name: &Name, at: usize, slot: Slot<J>) -> Slot<J>
        requires known { IsSome (spots_of self.old name.now) }
        requires place { IsAt self.old name.now at }
        ensures stood { spots_of self.old name.now ≡ Some result }
        ensures put { PutAt (spots_of self.old) (spots_of self.new) name.now slot }
        ensures place { IsAt self.new name.now at }
        ensures book { book_of self.new ≡ book_of self.old }
    {
        let (_, stands) = self.slots.pair_mut(at);
        mem::replace(stands, slot)
    }

    // Takes a job that is known to be ready, without a look at its stop, and the place of that as its hint has it.
    pub(crate) fn take_ready(&mut self, name: &Name, at: usize) -> (J, usize)
        requires ready { is_ready (spots_of self.old) (spots_of self.old name.now) ≡ true }
        requires place { IsAt self.old name.now at }
        ensures stood { job_in (spots_of self.old name.now) ≡ Some result.0 }
        ensures out { PutAt (spots_of self.old) (spots_of self.new) name.now slot.Out }
        ensures place { IsAt self.new name.now at }
        ensures book { book_of self.new ≡ book_of self.old }
    {
        match self.swap(name, at, Slot::Out) {
            Slot::Ready(job) => (job, usize::MAX),
            Slot::Stopped(job, stop) => (job, stop.hint()),
            Slot::Out => unreachable!(),
            Slot::Done(_) => unreachable!(),
        }
    }

    // Takes what stands at a name, and leaves `Out` there.
    fn take_slot(&mut self, name: &Name) -> Option<Slot<J>>
        ensures taken { TakenOut (spots_of self.old) (spots_of self.new) name.now result }
        ensures book { book_of self.new ≡ book_of self.old }
    {
        match self.slots.get_mut(name) {
            Some(slot) => Some(mem::replace(slot, Slot::Out)),
            None => None,
        }
    }

    // Puts something in the place of what stands at a name.
    fn put_slot(&mut self, name: &Name, slot: Slot<J>)
        requires known { IsSome (spots_of self.old name.now) }
        ensures put { PutAt (spots_of self.old) (spots_of self.new) name.now slot }
        ensures book { book_of self.new ≡ book_of self.old }
    {
        if let Some(stands) = self.slots.get_mut(name) {
            *stands = slot;
        }
    }

    /// Puts a job back that was taken, with what its drive came to over the book's inputs and any part of what is done.
    /// It takes no memory.
    pub fn put_back(&mut self, job: J, outcome: Result<Made, Stuck>)
        requires out { spots_of self.old (J.name job) ≡ Some slot.Out }
        ensures put { PutAt (spots_of self.old) (spots_of self.new) (J.name job) (slot_after job outcome) }
        ensures book { book_of self.new ≡ book_of self.old }
    {
        if let Some(slot) = self.slots.get_mut(job.key()) {
            *slot = match outcome {
                Ok(made) => Slot::Done(made),
                Err(Stuck::NotDone(name)) => Slot::Stopped(job, name),
                Err(Stuck::Missing(name)) => Slot::Stopped(job, name),
            };
        }
    }
    /// Gives a job that has stopped up for a new one of its key, which waits where that one does. It takes no memory.
    pub fn renew(&mut self, job: J)
        requires stopped { HasStopped (spots_of self.old) (J.name job) }
        ensures renewed { Renews (spots_of self.old) (spots_of self.new) (J.name job) job }
        ensures book { book_of self.new ≡ book_of self.old }
    {
        if let Some(slot) = self.slots.get_mut(job.key()) {
            if let Slot::Stopped(stands, _) = slot {
                *stands = job;
            }
        }
    }
}
