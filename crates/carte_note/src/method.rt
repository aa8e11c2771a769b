ghost use Rattle.std.specs.Prelude.{◌≡◌};
ghost use Rattle.carte_sound.specs.Held.{gathers, looks_into_held};
ghost use Rattle.carte_note.specs.Methods.{how_of, is_dirty};

use carte_record::Way;

/// What a rebuilder does with a finished key: under dirty bits it writes no trace, else one of its kind.
#[derive(Clone, Copy, Debug, PartialEq, Eq)]
pub enum Method {
    Dirty,
    Tracing(Way),
}

impl Method {
    /// Whether the rules and the inputs beneath a key are gathered as it is finished, so that its trace names them.
    pub fn gathers_beneath(self) -> bool
        ensures { result ≡ gathers (how_of self) }
    {
        match self {
            Method::Dirty => false,
            Method::Tracing(Way::Verifying) => false,
            Method::Tracing(Way::Constructive) => false,
            Method::Tracing(Way::Deep) => true,
        }
    }

    /// Whether the needs of a held key are looked into.
    pub fn looks_beneath(self) -> bool
        ensures { result ≡ looks_into_held (how_of self) }
    {
        match self {
            Method::Dirty => false,
            Method::Tracing(Way::Verifying) => true,
            Method::Tracing(Way::Constructive) => true,
            Method::Tracing(Way::Deep) => false,
        }
    }

    pub(crate) fn is_dirty(self) -> bool
        ensures { result ≡ is_dirty (how_of self) }
    {
        match self {
            Method::Dirty => true,
            Method::Tracing(_) => false,
        }
    }
}
