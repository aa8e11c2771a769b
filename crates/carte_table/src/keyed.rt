ghost use Rattle.std.specs.Prelude.{◌≡◌, ℕ, Bool, List, true};

use carte_codec::Measured;
use carte_value::{Name, Same};

/// An item that is looked up by a name, its key.
pub trait Keyed: Measured + Same {
    ghost key_of: { Self → List ℕ };

    fn key(&self) -> &Name
        ensures { result.now ≡ key_of self.now };
}

/// An item with a mark, which is neither its key nor spelled.
pub trait Marked: Keyed {
    ghost marked: { Bool → Self → Self };

    fn mark(&mut self, is_marked: bool)
        ensures { self.new ≡ marked is_marked self.old };

    ghost key_stays: { (b : Bool) (x : Self) → Self.key_of (marked b x) ≡ Self.key_of x };

    ghost spelling_stays: { (b : Bool) (x : Self) → Self.spelled (marked b x) ≡ Self.spelled x };
}

/// An item of which equal ones are found.
pub trait Compared: Keyed {
    ghost alike: { Self → Self → Bool };

    /// Whether the other one equals it.
    fn is_alike(&self, other: &Self) -> bool
        ensures { result ≡ alike self.now other.now };

    ghost alike_is: { (x y : Self) → alike x y ≡ true → x ≡ y };

    ghost alike_self: { (x : Self) → alike x x ≡ true };
}
