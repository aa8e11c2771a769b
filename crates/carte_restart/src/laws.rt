//! What follows from what is said of each key. Each law is what a function of no use but this ensures.

ghost use Rattle.carte_restart.specs.Totals.{AreFewInAll};

/// Of all keys together at most so many starts are in vain as those of each make in all.
pub fn starts_in_vain_in_all()
    ensures { AreFewInAll }
{}
