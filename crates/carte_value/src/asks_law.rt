ghost use Rattle.carte_value.specs.Runs.{Grown, StuckIsLast};

/// What a computation gives over a part of a truth it gives over the whole, and it asks for the same names.
pub fn grown<T>()
    ensures { Grown T }
{}

/// A computation stops at a name exactly where that is the last that it asks for and has no value.
pub fn stuck_is_last<T>()
    ensures { StuckIsLast T }
{}
