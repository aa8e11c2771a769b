// What a build by deep traces may rely on, each law as the contract of a function that does nothing.
ghost use Rattle.std.specs.Prelude.{◌≡◌, ℕ, List, []};
ghost use Rattle.carte_value.specs.Lists.{Has};
ghost use Rattle.carte_value.specs.Truths.{Among, NoneTwice};
ghost use Rattle.carte_book.specs.Book.{Book, content};
ghost use Rattle.carte_book.specs.Needs.{IsRule};
ghost use Rattle.carte_book.specs.Task.{task_now};
ghost use Rattle.carte_record.specs.declared.deep_trace.DeepTrace.{DeepTrace};
ghost use Rattle.carte_record.specs.declared.way.Way.TheVariants.{Deep};
ghost use Rattle.carte_record.specs.Kept.{SomeKept};
ghost use Rattle.carte_sound.specs.Base.{HasDistinctDigests, IsBase};
ghost use Rattle.carte_sound.specs.Begun.{Beginning, IsBeginning, begin};
ghost use Rattle.carte_sound.specs.Beneath.{beneath, rules_beneath};
ghost use Rattle.carte_sound.specs.Finished.{AreFinished};
ghost use Rattle.carte_sound.specs.Held.{AreLinks, How, IsHeld, IsHeldBy, tracing};
ghost use Rattle.carte_sound.specs.Left.{Finishes, left};
ghost use Rattle.carte_sound.specs.Sound.{IsSound};
ghost use Rattle.carte_sound.specs.True.{IsTraceOf, deep_trace};

/// Minimality: a key is held where any trace of it is of a book in which the rules beneath it had their present tasks and
/// the inputs there their present values; whatever else that book had.
pub fn unchanged_is_held()
    ensures { (K : SomeKept) (b c : Book) (k : List ℕ) (t : DeepTrace) → Has (K.traces Deep k) t → IsTraceOf Deep c k t → ((i : List ℕ) → Among (rules_beneath c k) i → task_now b i ≡ task_now c i) → ((i : List ℕ) → Among (beneath c k) i → content b i ≡ content c i) → IsHeld (tracing Deep) K b k }
{}

/// A rule that is held for one book is held in the build of the next, where the rules and the inputs beneath it stay,
/// whichever rules were put in, changed or taken away elsewhere.
pub fn stays_held()
    ensures { (K : SomeKept) (b c : Book) (H : List Book) (k : List ℕ) (x : Beginning) → IsBase K b H → IsHeld (tracing Deep) K b k → IsRule c k → ((i : List ℕ) → Among (rules_beneath b k) i → task_now c i ≡ task_now b i) → ((i : List ℕ) → Among (beneath b k) i → content c i ≡ content b i) → IsBeginning K c x → IsHeld (tracing Deep) (begin K x) c k }
{}

/// Set back: a rule that is held for a book is held for it again behind the build of another book, of which it is a rule
/// too, whatever else is other there, whichever keys that has run, and by whichever rebuilder.
pub fn set_back_is_held()
    ensures { (h : How) (K : SomeKept) (b c : Book) (H : List Book) (k : List ℕ) (y : Beginning) (finished : Finishes) (chain : List (List ℕ)) (x : Beginning) → IsSound K H → Has H c → HasDistinctDigests H → IsBeginning K c y → NoneTwice chain → AreFinished h c (begin K y) [] finished → IsRule c k → IsRule b k → IsHeld (tracing Deep) K b k
        → IsBeginning (left h c (begin K y) finished chain) b x → IsHeld (tracing Deep) (begin (left h c (begin K y) finished chain) x) b k }
{}

/// A key without a trace whose rules all have their present tasks isn't held.
pub fn other_tasks_hold_nothing()
    ensures { (K : SomeKept) (b : Book) (k : List ℕ) → ((t : DeepTrace) → Has (K.traces Deep k) t → ¬ (AreLinks (task_now b) t.tasks)) → ¬ (IsHeld (tracing Deep) K b k) }
{}

/// A trace that a key is held by names just the rules and the inputs beneath it, and is that of the present book.
pub fn held_trace_is_present()
    ensures { (K : SomeKept) (b : Book) (H : List Book) (k : List ℕ) (t : DeepTrace) → IsBase K b H → IsHeldBy Deep K b k t → t ≡ deep_trace b k }
{}
