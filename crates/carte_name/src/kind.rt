ghost use Rattle.std.specs.Prelude.{◌≡◌};
ghost use Rattle.carte_name.specs.Kinds.{is_text_of};

use crate::name_text::{is_cell, is_rule};

/// The two kinds of books: rule files in TOML, and sheets in CSV. They differ in their names.
#[derive(Clone, Copy, Debug, PartialEq, Eq)]
pub enum Kind {
    Rules,
    Sheet,
}

impl Kind {
    /// Whether a text is read as a name of this kind, that of a cell in either case.
    pub fn is_name(self, text: &str) -> bool
        ensures { result ≡ is_text_of self text.now }
    {
        match self {
            Kind::Rules => is_rule(text.as_bytes()),
            Kind::Sheet => is_cell(text.as_bytes()),
        }
    }
}
