// Laws of the definitions, each as the contract of a function that does nothing.
ghost use Rattle.std.specs.Prelude.{◌≡◌, ℕ, List, Some, if◌then◌else◌};
ghost use Rattle.std.specs.Ordering.{eq_by_cmp};
ghost use Rattle.std.specs.Result.{result_ok};
ghost use Rattle.carte_name.specs.Names.{name_cmp};
ghost use Rattle.carte_tree.specs.Tree.{Tree};
ghost use Rattle.carte_tree.specs.Meaning.{eval};
ghost use Rattle.carte_book.specs.Book.{Item, Book, rule, content, settled, clean};
ghost use Rattle.carte_book.specs.Digest.{OneDigest};
ghost use Rattle.carte_book.specs.Dynamic.{NoDynamicPath, IsOrderReason, OrderCleanOrReason};
ghost use Rattle.carte_book.specs.Edits.{with_item};
ghost use Rattle.carte_book.specs.Reason.{AllClean, IsReason};
ghost use Rattle.carte_book.specs.Stuck.{StuckIsLastNeed, CleanOrReason};
ghost use Rattle.carte_book.specs.Task.{OneTask};
ghost use Rattle.carte_book.specs.declared.reason.Reason.{Reason};

/// The clean values are a fixpoint: one more round of evaluation changes none.

pub fn clean_is_settled()
    ensures { (b : Book) → settled b (clean b) ≡ clean b }
{}

/// What was put at a name stands there, and all else is as before.
#[tactic(auto, using(crate::proofs::Books::item_put))]
pub fn put_stands()
    ensures { (b : Book) (k : List ℕ) (x : Item) (q : List ℕ) → content (with_item b k x) q ≡ (if eq_by_cmp name_cmp q k then Some x else content b q) }
{}

/// Targets have one reason for a refusal at most.
#[tactic(auto, using(crate::proofs::Reasons::one_reason))]
pub fn reason_is_unique()
    ensures { (b : Book) (targets : List (List ℕ)) (one other : Reason) → IsReason b targets one → IsReason b targets other → one ≡ other }
{}

/// Targets that all have clean values have no reason for a refusal.
#[tactic(auto, using(crate::proofs::Reasons::no_reason))]
pub fn clean_or_refused()
    ensures { (b : Book) (targets : List (List ℕ)) (reason : Reason) → IsReason b targets reason → AllClean b targets → ⊥ }
{}

/// The value of a rule is what its formula gives over the values of all names.
#[tactic(auto, using(crate::proofs::Clean::clean_rule))]
pub fn clean_is_evaluated()
    ensures { (b : Book) (k : List ℕ) (e : Tree) → content b k ≡ Some (rule e) → clean b k ≡ result_ok (eval b.kind (clean b) e) }
{}

/// Targets have one reason for a refusal at most where rules are ordered before any is worked out.
#[tactic(auto, using(crate::proofs::Orders::one_order_reason))]
pub fn order_reason_is_unique()
    ensures { (b : Book) (targets : List (List ℕ)) (one other : Reason) → IsOrderReason b targets one → IsOrderReason b targets other → one ≡ other }
{}

/// Targets that lead to no dynamic rule and all have clean values have no such reason.
#[tactic(auto, using(crate::proofs::Orders::no_order_reason))]
pub fn order_clean_or_refused()
    ensures { (b : Book) (targets : List (List ℕ)) (reason : Reason) → IsOrderReason b targets reason → NoDynamicPath b targets → AllClean b targets → ⊥ }
{}

/// Books of one kind with the same rules have one digest, whatever texts their formulas were read from.
pub fn one_digest()
    ensures { OneDigest }
{}

/// Rules with one formula have one task in books of one kind, whatever texts they were read from and whatever else these
/// books have.
#[tactic(auto, using(crate::proofs::Tasks::one_task))]
pub fn one_task()
    ensures { OneTask }
{}

/// A rule is stuck at a need exactly where that is the last of its needs and has no clean value.
#[tactic(auto, using(crate::proofs::Stuck::stuck_both))]
pub fn stuck_need_is_last()
    ensures { (b : Book) (k j : List ℕ) → StuckIsLastNeed b k j }
{}

/// Targets have clean values, or there is a reason why a build of them is refused.
#[tactic(auto, using(crate::proofs::Reasoned::reason_or_clean))]
pub fn reason_or_clean()
    ensures { (b : Book) (targets : List (List ℕ)) → CleanOrReason b targets }
{}

/// Where rules are ordered before any is worked out, targets lead to no dynamic rule and have clean values, or there is a
/// reason why a build of them is refused.
#[tactic(auto, using(crate::proofs::FirstDynamic::order_reason_or_clean))]
pub fn order_reason_or_clean()
    ensures { (b : Book) (targets : List (List ℕ)) → OrderCleanOrReason b targets }
{}
