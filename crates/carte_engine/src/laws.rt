// Laws of builds, each as the contract of a function that does nothing.
ghost use Rattle.std.specs.Prelude.{◌++◌, ◌∷◌, [], ℕ, List};
ghost use Rattle.carte_book.specs.Book.{Book};
ghost use Rattle.carte_record.specs.declared.batch.Batch.{Batch};
ghost use Rattle.carte_sound.specs.Base.{HasDistinctDigests};
ghost use Rattle.carte_sound.specs.Held.{How};
ghost use Rattle.carte_state.specs.Runs.{applied_to};
ghost use Rattle.carte_state.specs.Versions.{AnyKept, two_of};
ghost use Rattle.carte_engine.specs.declared.answer.Answer.{Answer};
ghost use Rattle.carte_engine.specs.declared.answer.Answer.TheVariants.{Built as built_answer};
ghost use Rattle.carte_engine.specs.declared.answer.Built.{Built};
ghost use Rattle.carte_engine.specs.declared.scheduler.Scheduler.{Scheduler};
ghost use Rattle.carte_engine.specs.Answers.{Leads};
ghost use Rattle.carte_engine.specs.Histories.{HistoryIsRight};
ghost use Rattle.carte_engine.specs.Schedulers.{IsServed, IsServedOrRefused, KeepsBy};
ghost use Rattle.carte_engine.specs.Versions.{IsSoundAny, kept_for};

/// Whichever of the batches were committed that a build may commit, in their order, what is kept is sound for the history
/// with the present book, with each scheduler and each rebuilder, whatever the build answers, and of whichever version what
/// was kept is.
pub fn plan_is_sound()
    ensures { (s : Scheduler) (h : How) (A : AnyKept) (H : List Book) (b : Book) (targets : List (List ℕ)) (a : Answer) (some rest : List Batch)
        → IsSoundAny A H → HasDistinctDigests (H ++ b ∷ []) → Leads s h A b targets a (some ++ rest) → IsSoundAny (applied_to A some) (H ++ b ∷ []) }
{}

/// Behind all batches of a build that was served each rule that its targets reach is kept with its clean value; under deep
/// traces, where rules aren't ordered before any is worked out, each rule that was done is.
pub fn plan_keeps()
    ensures { (s : Scheduler) (h : How) (A : AnyKept) (H : List Book) (b : Book) (targets : List (List ℕ)) (built : Built) (Bs : List Batch)
        → IsSoundAny A H → HasDistinctDigests (H ++ b ∷ []) → IsServed s b targets → Leads s h A b targets (built_answer built) Bs
        → KeepsBy s h (kept_for A b) (two_of (applied_to A Bs)) b targets }
{}

/// However many builds follow one another, over whatever books, each with its own scheduler and rebuilder, and behind
/// whichever of its batches a crash cuts each off: what is kept stays sound for the books so far, and each answer is right.
/// The first one finds what is sound for the books before, of either version: nothing kept is, for none.
pub fn history_is_right()
    ensures { HistoryIsRight }
{}

/// Of each book and targets a build has nothing to refuse, or there is a reason for a refusal, with each scheduler.
pub fn served_or_refused()
    ensures { (s : Scheduler) (b : Book) (targets : List (List ℕ)) → IsServedOrRefused s b targets }
{}
