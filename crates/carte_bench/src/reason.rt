ghost use Rattle.std.specs.Prelude.{◌≡◌, IfOk};
ghost use Rattle.carte_bench.specs.Held.{spots_of, book_of};
ghost use Rattle.carte_bench.specs.Waits.{waits_on, onward, WaitsAs, Leads, Follows};

use crate::way::{Course, Onward, Way};
use crate::{Bench, Slot};
use carte_book::{Looked, Reason};
use carte_value::{Name, NoMemory};
use std::alloc::Global;

impl<J> Bench<'_, J> {
    /// The path from a target on which each rule waits for the next, where it leads round or to a name that has nothing.
    /// Over jobs that fit this is why the target has no value.
    pub fn reason(&self, alloc: Global, target: &Name) -> Result<Option<Reason>, NoMemory>
        ensures { IfOk result (WaitsAs (onward (book_of self.now) (spots_of self.now)) target.now) }
    {
        let mut way = Way::of(alloc, target, self.book.hasher())?;
        'names: while way.names.len() <= self.slots.len() {
            match self.follow(alloc, &mut way)? {
                Course::On => (),
                Course::Ends => return Ok(None),
                Course::Round => return Ok(Some(Reason::Cycle(way.path(alloc)?))),
                Course::Astray => return Ok(Some(Reason::Missing(way.path(alloc)?))),
            }
        }
        unreachable!()
    }

    fn follow(&self, alloc: Global, way: &mut Way) -> Result<Course, NoMemory>
        ensures { IfOk result (Follows (onward (book_of self.now) (spots_of self.now)) way.old.names.keys way.old.at way.new.names.keys way.new.at) }
    {
        if way.is_round() {
            return Ok(Course::Round);
        }
        match self.onward(&way.at) {
            Onward::Gone => Ok(Course::Astray),
            Onward::Ends => Ok(Course::Ends),
            Onward::WaitsFor(next) => {
                way.go(next.copy(alloc)?)?;
                Ok(Course::On)
            }
        }
    }

    fn onward(&self, name: &Name) -> Onward<'_>
        ensures { Leads (onward (book_of self.now) (spots_of self.now) name.now) result }
    {
        match self.book.lookup(name) {
            Looked::Input(_) => Onward::Ends,
            Looked::Rule(_) => self.wait(name),
            Looked::None => Onward::Gone,
        }
    }

    // What the job of a rule waits for.
    fn wait(&self, name: &Name) -> Onward<'_>
        ensures { Leads (waits_on (spots_of self.now) (spots_of self.now name.now)) result }
    {
        match self.slots.get(name) {
            Some(Slot::Stopped(_, at)) => {
                if self.is_done(at) {
                    Onward::Ends
                } else {
                    Onward::WaitsFor(at)
                }
            }
            _ => Onward::Ends,
        }
    }
}
