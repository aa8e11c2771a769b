// Laws of what is kept, each as the contract of a function that does nothing.
ghost use Rattle.std.specs.Prelude.{◌≡◌, ◌++◌, ◌∷◌, [], ℕ, List};
ghost use Rattle.carte_value.specs.declared.digest.Digest.{Digest};
ghost use Rattle.carte_value.specs.Truths.{Among, NoneTwice};
ghost use Rattle.carte_book.specs.Book.{Book, content};
ghost use Rattle.carte_book.specs.Needs.{IsRule, Reaches};
ghost use Rattle.carte_book.specs.Reason.{AllClean};
ghost use Rattle.carte_book.specs.Task.{task_now};
ghost use Rattle.carte_record.specs.declared.batch.Batch.{Batch};
ghost use Rattle.carte_record.specs.declared.deep_trace.DeepTrace.{DeepTrace};
ghost use Rattle.carte_record.specs.declared.start.Start.TheVariants.{GoOn};
ghost use Rattle.carte_record.specs.declared.way.Way.TheVariants.{Deep};
ghost use Rattle.carte_record.specs.Folds.{apply};
ghost use Rattle.carte_record.specs.Kept.{SomeKept, nothing_kept};
ghost use Rattle.carte_sound.specs.Base.{HasDistinctDigests, IsBase};
ghost use Rattle.carte_sound.specs.Begun.{Beginning, IsBeginning, IsByRole, begin};
ghost use Rattle.carte_sound.specs.Beneath.{beneath, rules_beneath};
ghost use Rattle.carte_sound.specs.Carries.{Carries};
ghost use Rattle.carte_sound.specs.Finished.{AreFinished};
ghost use Rattle.carte_sound.specs.Held.{AreLinks, How, IsHeld, tracing};
ghost use Rattle.carte_sound.specs.LeadsTo.{LeadsInOrder, LeadsRefused, LeadsRestarting, LeadsSuspending, marks_left};
ghost use Rattle.carte_sound.specs.Left.{Finishes, keys_of, left};
ghost use Rattle.carte_value.specs.Lists.{Has};
ghost use Rattle.carte_sound.specs.Marks.{IsFresh, present};
ghost use Rattle.carte_sound.specs.Results.{HasResult, IsKeptNow};
ghost use Rattle.carte_sound.specs.Sound.{IsSound};
ghost use Rattle.carte_sound.specs.Treated.{IsDoneRestarting, IsDoneSuspending};
ghost use Rattle.carte_sound.specs.True.{IsTraceOf, deep_trace};

/// Nothing kept is sound for every history.
pub fn nothing_is_sound()
    ensures { (H : List Book) → IsSound nothing_kept H }
{}

/// What is sound stays so as the history grows.
pub fn sound_as_history_grows()
    ensures { (K : SomeKept) (H J : List Book) → IsSound K H → IsSound K (H ++ J) }
{}

/// Marking and dropping keep what is kept sound, and each entry that is fresh behind it says what the present book says.
pub fn marking_is_sound()
    ensures { (K : SomeKept) (b : Book) (H : List Book) (x : Beginning) → IsSound K H → Has H b → HasDistinctDigests H → IsBeginning K b x → IsBase (begin K x) b H }
{}

/// What a build begins with of what is sound is told by what each name is now: rules keep their entries, with the new marks,
/// and their traces, inputs keep what they were seen with, and nothing else is kept.
pub fn dropping_is_by_role()
    ensures { (K : SomeKept) (b : Book) (H : List Book) (x : Beginning) → IsSound K H → IsBeginning K b x → IsByRole K b x (begin K x) }
{}

/// What a build leaves is sound and says what the present book says, under each rebuilder and at each station: the keys
/// finished so far in any such order leave it so.
pub fn left_is_sound()
    ensures { (h : How) (b : Book) (H : List Book) (M : SomeKept) (finished : Finishes) (chain : List (List ℕ)) → IsBase M b H → NoneTwice chain → AreFinished h b M [] finished → IsBase (left h b M finished chain) b H }
{}

/// A held key's result is the digest of its clean value, and the store has that value.
pub fn held_is_clean()
    ensures { (h : How) (K : SomeKept) (b : Book) (H : List Book) (k : List ℕ) → IsBase K b H → IsHeld h K b k → (d : Digest) × HasResult K b k d }
{}

/// Where the targets that are rules have fresh entries, each rule that they reach is kept with its clean value.
pub fn reached_is_kept()
    ensures { (K : SomeKept) (b : Book) (H : List Book) (targets : List (List ℕ)) → IsBase K b H → ((k : List ℕ) → Among targets k → IsRule b k → IsFresh K k) → (k : List ℕ) → Reaches b targets k → IsRule b k → IsKeptNow K b k }
{}

/// A second build of the same book holds each key that the first one finished, under each rebuilder: it runs none of them.
pub fn finished_is_held()
    ensures { (h : How) (b : Book) (H : List Book) (M : SomeKept) (finished : Finishes) (chain : List (List ℕ)) (x : Beginning) → IsBase M b H → NoneTwice chain → AreFinished h b M [] finished → IsBeginning (left h b M finished chain) b x → (k : List ℕ) → Among (keys_of finished) k → IsHeld h (begin (left h b M finished chain) x) b k }
{}

/// A batch that carries the difference, with what its build drops and marks, makes what the build leaves.
pub fn difference_is_left()
    ensures { (h : How) (b : Book) (K : SomeKept) (x : Beginning) (finished : Finishes) (chain : List (List ℕ)) (B : Batch) → B.start ≡ GoOn → B.gone ≡ x.gone → B.stale ≡ marks_left finished x → Carries b (begin K x) (left h b (begin K x) finished chain) B → apply B K ≡ left h b (begin K x) finished chain }
{}

/// A batch that a build leads to leaves what is kept sound for the history with the present book.
pub fn batch_is_sound()
    ensures in_order { (h : How) (K : SomeKept) (H : List Book) (b : Book) (targets : List (List ℕ)) (B : Batch) → IsSound K H → HasDistinctDigests (H ++ b ∷ []) → LeadsInOrder h K b targets B → IsSound (apply B K) (H ++ b ∷ []) }
    ensures refused { (h : How) (K : SomeKept) (H : List Book) (b : Book) (B : Batch) → IsSound K H → HasDistinctDigests (H ++ b ∷ []) → LeadsRefused h K b B → IsSound (apply B K) (H ++ b ∷ []) }
    ensures suspending { (h : How) (K : SomeKept) (H : List Book) (b : Book) (targets : List (List ℕ)) (B : Batch) → IsSound K H → HasDistinctDigests (H ++ b ∷ []) → LeadsSuspending h K b targets B → IsSound (apply B K) (H ++ b ∷ []) }
    ensures restarting { (h : How) (K : SomeKept) (H : List Book) (b : Book) (targets : List (List ℕ)) (B : Batch) → IsSound K H → HasDistinctDigests (H ++ b ∷ []) → LeadsRestarting h K b targets B → IsSound (apply B K) (H ++ b ∷ []) }
{}

/// Behind the batch of a build whose targets all have clean values, each rule that they reach is kept with its clean
/// value; where the build waits for what it needs, or begins anew once that is done, this is so but under deep traces, where
/// each rule that was done is.
pub fn batch_keeps_reached()
    ensures in_order { (h : How) (K : SomeKept) (H : List Book) (b : Book) (targets : List (List ℕ)) (B : Batch) → IsSound K H → HasDistinctDigests (H ++ b ∷ []) → LeadsInOrder h K b targets B → AllClean b targets → (k : List ℕ) → Reaches b targets k → IsRule b k → IsKeptNow (apply B K) b k }
    ensures suspending { (h : How) (K : SomeKept) (H : List Book) (b : Book) (targets : List (List ℕ)) (B : Batch) → ¬ (h ≡ tracing Deep) → IsSound K H → HasDistinctDigests (H ++ b ∷ []) → LeadsSuspending h K b targets B → AllClean b targets → (k : List ℕ) → Reaches b targets k → IsRule b k → IsKeptNow (apply B K) b k }
    ensures restarting { (h : How) (K : SomeKept) (H : List Book) (b : Book) (targets : List (List ℕ)) (B : Batch) → ¬ (h ≡ tracing Deep) → IsSound K H → HasDistinctDigests (H ++ b ∷ []) → LeadsRestarting h K b targets B → AllClean b targets → (k : List ℕ) → Reaches b targets k → IsRule b k → IsKeptNow (apply B K) b k }
    ensures deep { (h : How) (K : SomeKept) (H : List Book) (b : Book) (targets : List (List ℕ)) (B : Batch) → IsSound K H → HasDistinctDigests (H ++ b ∷ []) → (brings : LeadsSuspending h K b targets B) → (k : List ℕ) → IsDoneSuspending h (begin K brings.begun) b targets k → IsKeptNow (apply B K) b k }
    ensures deep_restarting { (h : How) (K : SomeKept) (H : List Book) (b : Book) (targets : List (List ℕ)) (B : Batch) → IsSound K H → HasDistinctDigests (H ++ b ∷ []) → (brings : LeadsRestarting h K b targets B) → (k : List ℕ) → IsDoneRestarting h (begin K brings.begun) b targets k → IsKeptNow (apply B K) b k }
{}

/// A deep trace whose rules and inputs are the present ones is the key's trace of the present book, and it holds wherever
/// they are.
pub fn deep_rules_hold()
    ensures held { (H : List Book) (c b : Book) (k : List ℕ) (t : DeepTrace) → HasDistinctDigests H → Has H c → Has H b → IsTraceOf Deep c k t → AreLinks (task_now b) t.tasks → AreLinks (present b) t.links → t ≡ deep_trace b k }
    ensures unchanged { (b c : Book) (k : List ℕ) (t : DeepTrace) → IsTraceOf Deep c k t → ((i : List ℕ) → Among (rules_beneath c k) i → task_now b i ≡ task_now c i) → ((i : List ℕ) → Among (beneath c k) i → content b i ≡ content c i) → AreLinks (task_now b) t.tasks × AreLinks (present b) t.links }
{}
