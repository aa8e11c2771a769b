// What a build by constructive traces may rely on, each law as the contract of a function that does nothing.
ghost use Rattle.std.specs.Prelude.{◌≡◌, ℕ, List, [], Some};
ghost use Rattle.carte_value.specs.Lists.{Has};
ghost use Rattle.carte_value.specs.Truths.{Among, NoneTwice};
ghost use Rattle.carte_book.specs.Book.{Book, clean};
ghost use Rattle.carte_book.specs.Needs.{IsRule, needs};
ghost use Rattle.carte_book.specs.Task.{task_now};
ghost use Rattle.carte_record.specs.declared.trace.Trace.{Trace};
ghost use Rattle.carte_record.specs.declared.way.Way.TheVariants.{Constructive};
ghost use Rattle.carte_record.specs.Kept.{SomeKept};
ghost use Rattle.carte_sound.specs.Base.{HasDistinctDigests, IsBase};
ghost use Rattle.carte_sound.specs.Begun.{Beginning, IsBeginning, begin};
ghost use Rattle.carte_sound.specs.Finished.{AreFinished};
ghost use Rattle.carte_sound.specs.Held.{How, IsHeld, IsHeldBy, tracing};
ghost use Rattle.carte_sound.specs.Left.{Finishes, left};
ghost use Rattle.carte_sound.specs.Sound.{IsSound};
ghost use Rattle.carte_sound.specs.True.{IsTraceOf, links_to};

/// Minimality: a key is held where any trace of it is of a book in which it had its present task and its needs their present
/// values.
pub fn unchanged_is_held()
    ensures { (K : SomeKept) (b c : Book) (k : List ℕ) (t : Trace) → Has (K.traces Constructive k) t → IsTraceOf Constructive c k t → task_now b k ≡ task_now c k → ((j : List ℕ) → Among (needs c k) j → clean b j ≡ clean c j) → IsHeld (tracing Constructive) K b k }
{}

/// And no other key is held: in each book that a trace is of, by which a key is held, it had its present task and its needs
/// their present values.
pub fn held_is_unchanged()
    ensures task { (K : SomeKept) (b c : Book) (k : List ℕ) (t : Trace) → IsTraceOf Constructive c k t → IsHeldBy Constructive K b k t → task_now b k ≡ task_now c k }
    ensures needs { (K : SomeKept) (b c : Book) (H : List Book) (k : List ℕ) (t : Trace) → IsBase K b H → Has H c → IsTraceOf Constructive c k t → IsHeldBy Constructive K b k t → (j : List ℕ) → Among (needs c k) j → clean b j ≡ clean c j }
{}

/// Early cutoff: a key that is held for one book is held in the build of the next, where it keeps its task and its needs
/// their values, whatever has run beneath it, and whichever rules were put in, changed or taken away elsewhere.
pub fn early_cutoff()
    ensures { (K : SomeKept) (b c : Book) (H : List Book) (k : List ℕ) (x : Beginning) → IsBase K b H → IsHeld (tracing Constructive) K b k → task_now c k ≡ task_now b k → ((j : List ℕ) → Among (needs b k) j → clean c j ≡ clean b j) → IsBeginning K c x → IsHeld (tracing Constructive) (begin K x) c k }
{}

/// Set back: a key that is held for a book is held for it again behind the build of another book, of which it is a rule too,
/// whatever else is other there, whichever keys that has run, and by whichever rebuilder. So its old result comes without
/// a run, though newer traces and the key's entry tell of another one.
pub fn set_back_is_held()
    ensures { (h : How) (K : SomeKept) (b c : Book) (H : List Book) (k : List ℕ) (y : Beginning) (finished : Finishes) (chain : List (List ℕ)) (x : Beginning) → IsSound K H → Has H c → HasDistinctDigests H → IsBeginning K c y → NoneTwice chain → AreFinished h c (begin K y) [] finished → IsRule c k → IsHeld (tracing Constructive) K b k
        → IsBeginning (left h c (begin K y) finished chain) b x → IsHeld (tracing Constructive) (begin (left h c (begin K y) finished chain) x) b k }
{}

/// A key without a trace of its present task isn't held.
pub fn other_tasks_hold_nothing()
    ensures { (K : SomeKept) (b : Book) (k : List ℕ) → ((t : Trace) → Has (K.traces Constructive k) t → ¬ (task_now b k ≡ Some t.task)) → ¬ (IsHeld (tracing Constructive) K b k) }
{}

/// The traces of a key alone decide whether it is held: it needs no entry, and no other key's traces.
pub fn traces_alone_hold()
    ensures { (K L : SomeKept) (b : Book) (k : List ℕ) → L.traces Constructive k ≡ K.traces Constructive k → IsHeld (tracing Constructive) K b k → IsHeld (tracing Constructive) L b k }
{}

/// The links of a trace that a key is held by are those of the present needs.
pub fn held_links_are_present()
    ensures { (K : SomeKept) (b : Book) (H : List Book) (k : List ℕ) (t : Trace) → IsBase K b H → IsHeldBy Constructive K b k t → t.links ≡ links_to (clean b) (needs b k) }
{}

/// Of all traces of a key one at most holds it: so which is compared first is a matter of cost alone.
pub fn one_trace_holds()
    ensures { (K : SomeKept) (b : Book) (H : List Book) (k : List ℕ) (s t : Trace) → IsBase K b H → IsHeldBy Constructive K b k s → IsHeldBy Constructive K b k t → s ≡ t }
{}
