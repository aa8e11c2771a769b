ghost use Rattle.std.specs.Prelude.{◌≡◌};
ghost use Rattle.std.specs.Cmp.{partial_equiv_from_equiv};
ghost use Rattle.std.specs.Cmp.Lexicographic.{nat_list_eq_equiv};
ghost use Rattle.carte_name.specs.Names.{name_eq};
ghost use Rattle.carte_table.specs.DigestKeys.{fed, fed_alike};

use carte_value::Digest;
use std::hash::{Hash, Hasher};
use std::marker::Model;

/// A digest as a key of a table, seen as its bytes. A hasher is fed all of them at once; of an array it is fed each by
/// itself, which costs more than the rest of a search.
#[derive(Drop)]
pub(crate) struct DigestKey {
    bytes: [u8; 32],
}

impl Model for DigestKey {
    ghost use Rattle.std.specs.Prelude.{ℕ, List};

    ghost Value = { List ℕ };

    ghost view = { λ k. k.bytes };
}

impl DigestKey {
    pub(crate) fn of(digest: &Digest) -> DigestKey
        ensures { result ≡ digest.now.0 }
    {
        DigestKey { bytes: digest.0 }
    }
}

impl PartialEq for DigestKey {
    ghost eq = { name_eq };

    ghost laws = { partial_equiv_from_equiv nat_list_eq_equiv };

    fn eq(&self, other: &DigestKey) -> bool {
        self.bytes == other.bytes
    }
}

impl Eq for DigestKey {
    ghost laws = { nat_list_eq_equiv };
}

impl Hash for DigestKey {
    ghost hash_input = { fed };

    ghost respects_eq = { fed_alike };

    fn hash<H: Hasher>(&self, state: &mut H) {
        state.write(self.bytes.as_slice())
    }
}
