ghost use Rattle.std.specs.Prelude.{◌≡◌, ℕ, List, None, false, IfOk, OnOk};
ghost use Rattle.carte_value.specs.Truths.{Truth, Extends};
ghost use Rattle.carte_value.specs.Once.{Answers};
ghost use Rattle.carte_effect.specs.Jobs.{Step};
ghost use Rattle.carte_book.specs.Book.{Book as SomeBook, book_view, clean};
ghost use Rattle.carte_book.specs.Needs.{IsRule, needs};
ghost use Rattle.carte_record.specs.Growth.{GrowsBatch};
ghost use Rattle.carte_record.specs.Kept.{SomeKept, kept_view};
ghost use Rattle.carte_sound.specs.Base.{IsBase};
ghost use Rattle.carte_sound.specs.Held.{How, looks_into_held, gathers};
ghost use Rattle.carte_note.specs.Methods.{how_of};
ghost use Rattle.carte_note.specs.Notes.{Notes, AreUnmarked};
ghost use Rattle.carte_rebuild.specs.Goes.{IsPart, may_ask, GoesOver};

use carte_book::Book;
use carte_effect::Job;
use carte_note::{Finished, Method, note_finished};
use carte_record::{Batch, Kept};
use carte_value::{Name, NoMemory};
use std::alloc::Global;

/// How a build tells that a key needs no run. `kept` is always what the build began with, after the marking.
pub trait Rebuilder {
    type Job: Job + Drop + Send + Sync;

    /// Which keys it holds, and what it leaves.
    ghost how: { Self → How };

    /// The job is one of `start` on this kept information, this book and this key, and was driven over parts of this truth, or not at all.
    ghost begun: { Self → SomeKept → SomeBook → Truth → List ℕ → Self.Job → Type 0 };

    /// A job for a rule, that reuses what is kept or runs the rule's task.
    fn start(
        &self,
        alloc: Global,
        kept: &Kept,
        book: &Book,
        key: &Name,
    ) -> Result<Self::Job, NoMemory>
        requires { IsRule (book_view book.now) key.now }
        ensures begun { IfOk result (begun self.now (kept_view kept.now) (book_view book.now) (λ q. None) key.now) }
        ensures name { IfOk result (λ j. Self.Job.name j ≡ key.now) }
        ensures idle { IfOk result (λ j. Self.Job.started j ≡ false) };

    /// What it does with a finished key, which tells it from the others.
    fn method(&self) -> Method
        ensures { how_of result ≡ how self.now };

    /// Adds to the batch of a build what one more finished key brings. Where there is no memory the batch may hold a part of it.
    fn note(
        &self,
        alloc: Global,
        kept: &Kept,
        book: &Book,
        finished: &Finished,
        batch: &mut Batch,
    ) -> Result<(), NoMemory>
        ensures notes { OnOk result (Notes (how self.now) (kept_view kept.now) (book_view book.now) finished.now batch.old batch.new) }
        ensures unmarked { OnOk result (AreUnmarked batch.old.entries → AreUnmarked batch.new.entries) }
        ensures front { GrowsBatch batch.old batch.new }
        ensures start { batch.new.start ≡ batch.old.start }
        ensures gone { batch.new.gone ≡ batch.old.gone }
        ensures stale { batch.new.stale ≡ batch.old.stale }
        ensures chain { batch.new.chain ≡ batch.old.chain }
    {
        note_finished(alloc, None, self.method(), kept, book, finished, batch)
    }

    /// Whether the needs of a held key are looked into.
    fn looks_beneath(&self) -> bool
        ensures { result ≡ looks_into_held (how self.now) }
    {
        self.method().looks_beneath()
    }

    /// Whether the rules and the inputs beneath a key are gathered as it is finished.
    fn gathers_beneath(&self) -> bool
        ensures { result ≡ gathers (how self.now) }
    {
        self.method().gathers_beneath()
    }

    /// Whatever such a job comes to has its key, also over kept information that isn't sound.
    ghost keyed: { (r : Self) (K : SomeKept) (b : SomeBook) (t : Truth) (k : List ℕ) (j : Self.Job) → begun r K b t k j → Self.Job.keyed j k };

    /// Such a job is one for the key's clean value. It stops at needs of the key alone, and asks for needs alone, or under deep traces for inputs beneath the key besides.
    ghost fits: { (r : Self) (K : SomeKept) (b : SomeBook) (H : List SomeBook) (t : Truth) (k : List ℕ) (j : Self.Job) → IsBase K b H → begun r K b t k j → Self.Job.fits j (clean b) k (clean b k) (needs b k) (may_ask (how r) b k) };

    /// Over the inputs and some of the other clean values it makes what is right, reusing exactly what is held; or it goes on as such a job.
    ghost goes_on: { (r : Self) (K : SomeKept) (b : SomeBook) (H : List SomeBook) (t : Truth) (k : List ℕ) (p : Self.Job) (part : Truth) (further : Answers) (step : Step) (q : Self.Job) → IsBase K b H → begun r K b t k p → Extends t part → IsPart b part → Self.Job.gives p part further step q → GoesOver (how r) K b k part (λ u j. begun r K b u k j) step q };
}
