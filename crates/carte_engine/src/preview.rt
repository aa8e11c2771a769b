ghost use Rattle.std.specs.Prelude.{◌≡◌, IfOk, Err};
ghost use Rattle.carte_book.specs.Book.{book_view};
ghost use Rattle.carte_book.specs.Reason.{IsReason};
ghost use Rattle.carte_book.specs.declared.reason.Reason.{Reason as SomeReason};
ghost use Rattle.carte_rebuild.specs.Ends.{HasTargets};
ghost use Rattle.carte_rebuild.specs.declared.work.WorkEnd.TheVariants.{All};
ghost use Rattle.carte_state.specs.States.{any_in};
ghost use Rattle.carte_engine.specs.Previews.{IsForeseen, IsPreview};
ghost use Rattle.carte_engine.specs.Versions.{Under, kept_for};

use crate::Engine;
use crate::basis::begin_on;
use carte_book::Book;
use carte_rebuild::{PlanFault, Rebuilder, Work, WorkEnd};
use carte_value::{Names, NoMemory};
use std::alloc::Global;

impl Engine {
    /// What a build of the targets would do where keys wait for what they need. Nothing is changed and nothing committed:
    /// it takes the work of such a build, and leaves out the batches. Refused where a target has no value. Of what is kept
    /// of version 1 it looks at what a build would make of it.
    pub fn preview<R: Rebuilder>(
        &mut self,
        alloc: Global,
        book: &Book,
        rebuilder: &R,
        targets: &Names,
    ) -> Result<Work, PlanFault>
        ensures kept { self.new ≡ self.old }

        // Under whatever history what is kept is sound for.
        ensures served { Under (any_in self.old) (book_view book.now)
            (IfOk result (IsPreview (R.how rebuilder.now) (kept_for (any_in self.old) (book_view book.now)) (book_view book.now) targets.now)) }
        ensures refused { Under (any_in self.old) (book_view book.now)
            ((reason : SomeReason) → result ≡ Err (PlanFault.Refused reason) → IsReason (book_view book.now) targets.now reason) }

        // Whatever is kept.
        ensures targets { IfOk result (λ work. HasTargets (book_view book.now) targets.now (All work)) }
    {
        // Who asks why a key would run looks many keys up.
        match self.foresee(alloc, book, rebuilder, targets)?.indexed()? {
            WorkEnd::All(work) => Ok(work),
            WorkEnd::Refused(_, reason) => Err(PlanFault::Refused(reason)),
        }
    }

    fn foresee<R: Rebuilder>(
        &mut self,
        alloc: Global,
        book: &Book,
        rebuilder: &R,
        targets: &Names,
    ) -> Result<WorkEnd, NoMemory>
        ensures kept { self.new ≡ self.old }
        ensures foreseen { Under (any_in self.old) (book_view book.now)
            (IfOk result (IsForeseen (R.how rebuilder.now) (kept_for (any_in self.old) (book_view book.now)) (book_view book.now) targets.now)) }
        ensures targets { IfOk result (HasTargets (book_view book.now) targets.now) }
    {
        let basis = begin_on(alloc, &mut self.state, book, None)?;
        let end = carte_suspend::build(alloc, rebuilder, basis.base(&self.state), book, targets);
        basis.leave(&mut self.state);
        end
    }
}
