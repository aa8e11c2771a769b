// A law of what was kept in version 1, as the contract of a function that does nothing.
ghost use Rattle.std.specs.Prelude.{◌++◌, ◌∷◌, [], List};
ghost use Rattle.carte_book.specs.Book.{Book};
ghost use Rattle.carte_record_one.specs.Kept.{SomeKeptOne};
ghost use Rattle.carte_sound.specs.Base.{HasDistinctDigests};
ghost use Rattle.carte_sound.specs.Sound.{IsSound};
ghost use Rattle.carte_sound_one.specs.Sound.{IsSoundOne};
ghost use Rattle.carte_sound_one.specs.Up.{up};

/// What is sound in version 1 becomes sound, for the history with the book by whose rules it is read.
pub fn up_is_sound()
    ensures { (K : SomeKeptOne) (H : List Book) (b : Book) → IsSoundOne K H → HasDistinctDigests (H ++ b ∷ []) → IsSound (up K b) (H ++ b ∷ []) }
{}
