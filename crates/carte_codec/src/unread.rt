ghost use Rattle.std.specs.Prelude.{◌≡◌};
ghost use Rattle.carte_codec.specs.declared.unread.Unread.TheVariants as unread;

use carte_value::NoMemory;

/// Why nothing was read from bytes.
#[derive(Clone, Copy, Debug, PartialEq, Eq)]
pub enum Unread {
    /// The bytes begin with no spelling.
    NotThere,
    NoMemory,
}

impl From<NoMemory> for Unread {
    ghost from_gives = { λ _ e. e ≡ unread.NoMemory };

    fn from(_: NoMemory) -> Unread {
        Unread::NoMemory
    }
}
