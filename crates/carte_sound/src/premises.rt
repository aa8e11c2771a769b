// That the laws speak of something, as the contract of a function that does nothing.
ghost use Rattle.std.specs.Prelude.{codes};
ghost use Rattle.carte_sound.specs.Held.{How};
ghost use Rattle.carte_sound.specs.Standing.{Stands, standing_book};

/// There is a book with a rule, of distinct digests; what a run of it leaves of nothing is sound, and the next build holds
/// the rule, under each rebuilder.
pub fn some_book_stands()
    ensures { (h : How) → Stands h standing_book (codes "b") }
{}
