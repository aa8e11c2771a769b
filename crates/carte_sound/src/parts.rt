// Laws of builds whose keys are committed part by part, each as the contract of a function that does nothing.
ghost use Rattle.std.specs.Prelude.{◌≡◌, ◌≤◌, ◌++◌, ◌∷◌, [], ℕ, List, length};
ghost use Rattle.carte_value.specs.Truths.{NoneTwice};
ghost use Rattle.carte_book.specs.Book.{Book};
ghost use Rattle.carte_book.specs.Needs.{IsRule, Reaches};
ghost use Rattle.carte_book.specs.Reason.{AllClean};
ghost use Rattle.carte_record.specs.declared.batch.Batch.{Batch};
ghost use Rattle.carte_record.specs.declared.start.Start.TheVariants.{GoOn};
ghost use Rattle.carte_record.specs.declared.way.Way.TheVariants.{Deep};
ghost use Rattle.carte_record.specs.Folds.{applied, apply};
ghost use Rattle.carte_record.specs.Kept.{SomeKept};
ghost use Rattle.carte_sound.specs.Base.{HasDistinctDigests, IsBase};
ghost use Rattle.carte_sound.specs.Begun.{Beginning, begin};
ghost use Rattle.carte_sound.specs.Carries.{Carries};
ghost use Rattle.carte_sound.specs.Cut.{IsCut};
ghost use Rattle.carte_sound.specs.Finished.{AreFinished};
ghost use Rattle.carte_sound.specs.Held.{How, tracing};
ghost use Rattle.carte_sound.specs.LeadsTo.{Brings, LeadsInOrder, LeadsRefused, LeadsRestarting, LeadsSuspending, chain_behind, chain_stays};
ghost use Rattle.carte_sound.specs.Left.{Finishes, left};
ghost use Rattle.carte_sound.specs.Parts.{AreOfParts, AreParts, BringsParts, IsStationOf, PartsInOrder, PartsRefused, PartsRestarting, PartsSuspending, full_part};
ghost use Rattle.carte_sound.specs.Results.{IsKeptNow};
ghost use Rattle.carte_sound.specs.Sound.{IsSound};
ghost use Rattle.carte_sound.specs.Treated.{IsDoneInOrder, IsDoneRestarting, IsDoneSuspending};

/// The keys that a build has finished so far leave what is kept sound and true now, whatever it finishes after them.
pub fn prefix_is_sound()
    ensures { (h : How) (b : Book) (H : List Book) (M : SomeKept) (before after : Finishes) (chain : List (List ℕ)) → IsBase M b H → NoneTwice chain → AreFinished h b M [] (before ++ after) → IsBase (left h b M before chain) b H }
{}

/// What all the keys leave is what the later ones leave of a station, whatever its chain is.
pub fn left_goes_on()
    ensures { (h : How) (b : Book) (M : SomeKept) (before after : Finishes) (chain between : List (List ℕ)) → left h b M (before ++ after) chain ≡ left h b (left h b M before between) after chain }
{}

/// A batch that goes on, and marks and drops nothing, makes of a station what its keys leave, where it carries just that.
pub fn later_difference_is_left()
    ensures { (h : How) (b : Book) (L : SomeKept) (part : Finishes) (chain : List (List ℕ)) (B : Batch) → B.start ≡ GoOn → B.gone ≡ [] → B.stale ≡ [] → Carries b L (left h b L part chain) B → apply B L ≡ left h b L part chain }
{}

/// Where the front of a batch carries some of what the whole does, the rest carries what is besides.
pub fn rest_carries()
    ensures { (b : Book) (M L N : SomeKept) (whole front rest : Batch) → IsCut whole front rest → Carries b M L front → Carries b M N whole → Carries b L N rest }
{}

/// Behind some batches of a build, and at least one, what is kept is what the keys leave that were finished first; and
/// behind all of them it is what all keys leave, with the build's chain.
pub fn parts_lead_to_stations()
    ensures some { (h : How) (b : Book) (K : SomeKept) (x : Beginning) (finished : Finishes) (chain : List (List ℕ)) (parts : List Finishes) (B : Batch) (some rest : List Batch) → AreParts finished parts → AreOfParts h b (begin K x) chain [] x parts (B ∷ some ++ rest) → IsStationOf h b (begin K x) finished chain (applied K (B ∷ some)) }
    ensures all { (h : How) (b : Book) (K : SomeKept) (x : Beginning) (finished : Finishes) (chain : List (List ℕ)) (parts : List Finishes) (Bs : List Batch) → AreParts finished parts → AreOfParts h b (begin K x) chain [] x parts Bs → applied K Bs ≡ left h b (begin K x) finished chain }
{}

/// Whichever of the batches were applied, in their order, what is kept is sound for the history with the present book.
pub fn each_station_is_sound()
    ensures in_order { (h : How) (K : SomeKept) (H : List Book) (b : Book) (targets : List (List ℕ)) (some rest : List Batch) → IsSound K H → HasDistinctDigests (H ++ b ∷ []) → PartsInOrder h K b targets (some ++ rest) → IsSound (applied K some) (H ++ b ∷ []) }
    ensures refused { (h : How) (K : SomeKept) (H : List Book) (b : Book) (some rest : List Batch) → IsSound K H → HasDistinctDigests (H ++ b ∷ []) → PartsRefused h K b (some ++ rest) → IsSound (applied K some) (H ++ b ∷ []) }
    ensures suspending { (h : How) (K : SomeKept) (H : List Book) (b : Book) (targets : List (List ℕ)) (some rest : List Batch) → IsSound K H → HasDistinctDigests (H ++ b ∷ []) → PartsSuspending h K b targets (some ++ rest) → IsSound (applied K some) (H ++ b ∷ []) }
    ensures restarting { (h : How) (K : SomeKept) (H : List Book) (b : Book) (targets : List (List ℕ)) (some rest : List Batch) → IsSound K H → HasDistinctDigests (H ++ b ∷ []) → PartsRestarting h K b targets (some ++ rest) → IsSound (applied K some) (H ++ b ∷ []) }
{}

/// Behind all batches of a build whose targets all have clean values, each rule that they reach is kept with its clean
/// value; under deep traces, but where rules are ordered first, each rule that was done is.
pub fn parts_keep_reached()
    ensures in_order { (h : How) (K : SomeKept) (H : List Book) (b : Book) (targets : List (List ℕ)) (Bs : List Batch) → IsSound K H → HasDistinctDigests (H ++ b ∷ []) → PartsInOrder h K b targets Bs → AllClean b targets → (k : List ℕ) → Reaches b targets k → IsRule b k → IsKeptNow (applied K Bs) b k }
    ensures suspending { (h : How) (K : SomeKept) (H : List Book) (b : Book) (targets : List (List ℕ)) (Bs : List Batch) → ¬ (h ≡ tracing Deep) → IsSound K H → HasDistinctDigests (H ++ b ∷ []) → PartsSuspending h K b targets Bs → AllClean b targets → (k : List ℕ) → Reaches b targets k → IsRule b k → IsKeptNow (applied K Bs) b k }
    ensures restarting { (h : How) (K : SomeKept) (H : List Book) (b : Book) (targets : List (List ℕ)) (Bs : List Batch) → ¬ (h ≡ tracing Deep) → IsSound K H → HasDistinctDigests (H ++ b ∷ []) → PartsRestarting h K b targets Bs → AllClean b targets → (k : List ℕ) → Reaches b targets k → IsRule b k → IsKeptNow (applied K Bs) b k }
    ensures deep { (h : How) (K : SomeKept) (H : List Book) (b : Book) (targets : List (List ℕ)) (Bs : List Batch) → IsSound K H → HasDistinctDigests (H ++ b ∷ []) → (brings : BringsParts h (λ M k. IsDoneSuspending h M b targets k) chain_stays K b Bs) → (k : List ℕ) → IsDoneSuspending h (begin K brings.begun) b targets k → IsKeptNow (applied K Bs) b k }
    ensures deep_restarting { (h : How) (K : SomeKept) (H : List Book) (b : Book) (targets : List (List ℕ)) (Bs : List Batch) → IsSound K H → HasDistinctDigests (H ++ b ∷ []) → (brings : BringsParts h (λ M k. IsDoneRestarting h M b targets k) chain_behind K b Bs) → (k : List ℕ) → IsDoneRestarting h (begin K brings.begun) b targets k → IsKeptNow (applied K Bs) b k }
{}

/// One batch alone is the batch of a build that commits all at once.
pub fn one_part_leads()
    ensures in_order { (h : How) (K : SomeKept) (b : Book) (targets : List (List ℕ)) (B : Batch) → PartsInOrder h K b targets (B ∷ []) → LeadsInOrder h K b targets B }
    ensures refused { (h : How) (K : SomeKept) (b : Book) (B : Batch) → PartsRefused h K b (B ∷ []) → LeadsRefused h K b B }
    ensures suspending { (h : How) (K : SomeKept) (b : Book) (targets : List (List ℕ)) (B : Batch) → PartsSuspending h K b targets (B ∷ []) → LeadsSuspending h K b targets B }
    ensures restarting { (h : How) (K : SomeKept) (b : Book) (targets : List (List ℕ)) (B : Batch) → PartsRestarting h K b targets (B ∷ []) → LeadsRestarting h K b targets B }
{}

/// And the batch of such a build is all of its parts, where it finished no more keys than a part has.
pub fn few_keys_are_one_part()
    ensures in_order { (h : How) (K : SomeKept) (b : Book) (targets : List (List ℕ)) (B : Batch) → (brings : Brings h (λ M k. IsDoneInOrder b targets k) chain_stays K b B) → length brings.finished ≤ full_part → PartsInOrder h K b targets (B ∷ []) }
    ensures refused { (h : How) (K : SomeKept) (b : Book) (B : Batch) → (brings : Brings h (λ M k. ⊥) chain_stays K b B) → length brings.finished ≤ full_part → PartsRefused h K b (B ∷ []) }
    ensures suspending { (h : How) (K : SomeKept) (b : Book) (targets : List (List ℕ)) (B : Batch) → (brings : Brings h (λ M k. IsDoneSuspending h M b targets k) chain_stays K b B) → length brings.finished ≤ full_part → PartsSuspending h K b targets (B ∷ []) }
    ensures restarting { (h : How) (K : SomeKept) (b : Book) (targets : List (List ℕ)) (B : Batch) → (brings : Brings h (λ M k. IsDoneRestarting h M b targets k) chain_behind K b B) → length brings.finished ≤ full_part → PartsRestarting h K b targets (B ∷ []) }
{}
