// What a build by verifying traces may rely on, each law as the contract of a function that does nothing.
ghost use Rattle.std.specs.Prelude.{◌≡◌, ℕ, List, None, Some};
ghost use Rattle.carte_value.specs.Lists.{Has};
ghost use Rattle.carte_value.specs.Truths.{Among};
ghost use Rattle.carte_book.specs.Book.{Book, clean};
ghost use Rattle.carte_book.specs.Needs.{needs};
ghost use Rattle.carte_book.specs.Task.{task_now};
ghost use Rattle.carte_record.specs.declared.entry.Entry.{Entry};
ghost use Rattle.carte_record.specs.declared.trace.Trace.{Trace};
ghost use Rattle.carte_record.specs.declared.way.Way.TheVariants.{Verifying};
ghost use Rattle.carte_record.specs.Kept.{SomeKept};
ghost use Rattle.carte_sound.specs.Base.{IsBase};
ghost use Rattle.carte_sound.specs.Begun.{Beginning, IsBeginning, begin};
ghost use Rattle.carte_sound.specs.Held.{IsHeld, IsHeldBy, tracing};
ghost use Rattle.carte_sound.specs.Results.{IsKeptNow};
ghost use Rattle.carte_sound.specs.True.{IsTraceOf, digest_or, links_to};

/// Minimality: a key is held where a trace of it is of a book in which it had its present task and its needs their present
/// values, and the result of its entry is of that book too; whatever else that book had.
pub fn unchanged_is_held()
    ensures { (K : SomeKept) (b c : Book) (k : List ℕ) (t : Trace) (e : Entry) → Has (K.traces Verifying k) t → IsTraceOf Verifying c k t → K.entries k ≡ Some e → e.result ≡ digest_or (clean c k) → task_now b k ≡ task_now c k → ((j : List ℕ) → Among (needs c k) j → clean b j ≡ clean c j) → IsHeld (tracing Verifying) K b k }
{}

/// And no other key is held: in each book that a trace is of, by which a key is held, it had its present task and its needs
/// their present values.
pub fn held_is_unchanged()
    ensures task { (K : SomeKept) (b c : Book) (k : List ℕ) (t : Trace) → IsTraceOf Verifying c k t → IsHeldBy Verifying K b k t → task_now b k ≡ task_now c k }
    ensures needs { (K : SomeKept) (b c : Book) (H : List Book) (k : List ℕ) (t : Trace) → IsBase K b H → Has H c → IsTraceOf Verifying c k t → IsHeldBy Verifying K b k t → (j : List ℕ) → Among (needs c k) j → clean b j ≡ clean c j }
{}

/// Early cutoff: a key that is held for one book is held in the build of the next, where it keeps its task and its needs
/// their values, whatever has run beneath it, and whichever rules were put in, changed or taken away elsewhere.
pub fn early_cutoff()
    ensures { (K : SomeKept) (b c : Book) (H : List Book) (k : List ℕ) (x : Beginning) → IsBase K b H → IsHeld (tracing Verifying) K b k → task_now c k ≡ task_now b k → ((j : List ℕ) → Among (needs b k) j → clean c j ≡ clean b j) → IsBeginning K c x → IsHeld (tracing Verifying) (begin K x) c k }
{}

/// The links of a trace that a key is held by are those of the present needs.
pub fn held_links_are_present()
    ensures { (K : SomeKept) (b : Book) (H : List Book) (k : List ℕ) (t : Trace) → IsBase K b H → IsHeldBy Verifying K b k t → t.links ≡ links_to (clean b) (needs b k) }
{}

/// What a held key gives again is the result that its entry has at last, and that is its present one: so a result that is
/// reused needs no new entry for its sake, and none that a later run has replaced comes back.
pub fn held_has_its_last_result()
    ensures { (K : SomeKept) (b : Book) (H : List Book) (k : List ℕ) → IsBase K b H → IsHeld (tracing Verifying) K b k → IsKeptNow K b k }
{}

/// A key without an entry isn't held, nor one without a verifying trace of its entry's result: so a key that another
/// rebuilder finished with a new result runs, once, before it is held. Nor is one without a trace of its present task.
pub fn untraced_is_not_held()
    ensures no_entry { (K : SomeKept) (b : Book) (k : List ℕ) → K.entries k ≡ None → ¬ (IsHeld (tracing Verifying) K b k) }
    ensures other_result { (K : SomeKept) (b : Book) (k : List ℕ) (e : Entry) → K.entries k ≡ Some e → ((t : Trace) → Has (K.traces Verifying k) t → ¬ (t.result ≡ e.result)) → ¬ (IsHeld (tracing Verifying) K b k) }
    ensures other_task { (K : SomeKept) (b : Book) (k : List ℕ) → ((t : Trace) → Has (K.traces Verifying k) t → ¬ (task_now b k ≡ Some t.task)) → ¬ (IsHeld (tracing Verifying) K b k) }
{}
