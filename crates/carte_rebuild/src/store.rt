ghost use Rattle.std.specs.Prelude.{◌≡◌, IfOk};
ghost use Rattle.carte_table.specs.Lookups.{first_value};

use carte_effect::Hashed;
use carte_record::Store;
use carte_value::{Digest, NoMemory};
use std::alloc::Global;

/// The first value of a digest, which it then has, where there is one.
pub fn stored(alloc: Global, values: &Store, digest: &Digest) -> Result<Option<Hashed>, NoMemory>
    ensures { IfOk result (λ value. value ≡ first_value values.now digest.now) }
{
    match values.find(digest) {
        Some(value) => Ok(Some(Hashed::with(value.copy(alloc)?, *digest))),
        None => Ok(None),
    }
}
