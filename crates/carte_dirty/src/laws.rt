// What a build by marks alone may rely on, each law as the contract of a function that does nothing.
ghost use Rattle.std.specs.Prelude.{ℕ, List};
ghost use Rattle.carte_book.specs.Book.{Book};
ghost use Rattle.carte_record.specs.Kept.{SomeKept};
ghost use Rattle.carte_sound.specs.Begun.{Beginning, IsBeginning, begin};
ghost use Rattle.carte_sound.specs.Held.{IsHeld, dirty};
ghost use Rattle.carte_sound.specs.Marks.{Comes, IsChanged, IsFresh};

/// Minimality: a key with a fresh entry is held in the build of any book in which neither its own rule nor anything that the
/// entry leads to has changed, whatever has elsewhere.
pub fn unchanged_is_held()
    ensures { (K : SomeKept) (b : Book) (k : List ℕ) (x : Beginning) → IsBeginning K b x → IsFresh K k → ((i : List ℕ) → Comes K k i → ¬ (IsChanged K b i)) → IsHeld dirty (begin K x) b k }
{}

/// A key whose own rule has changed, or whose entry leads to a changed input or rule, isn't held, whatever value that gives
/// to what lies between: nothing is cut off early.
pub fn changed_is_not_held()
    ensures { (K : SomeKept) (b : Book) (k i : List ℕ) (x : Beginning) → IsBeginning K b x → Comes K k i → IsChanged K b i → ¬ (IsHeld dirty (begin K x) b k) }
{}
