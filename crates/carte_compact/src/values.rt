// Values in the order of their digests.
ghost use Rattle.std.specs.Prelude.{◌≡◌, IfOk};
ghost use Rattle.carte_compact.specs.Live.{IsByDigest, order_of};

use carte_record::Store;
use carte_value::{NoMemory, Seeded, Value};
use std::alloc::Global;

/// The values in the order of their digests, those of one digest as they stood.
pub(crate) fn by_digest(alloc: Global, values: &Store, hasher: Seeded) -> Result<Store, NoMemory>
    ensures { IfOk result (λ list. IsByDigest values.now list) }
{
    let _len = values.len();
    let mut list = Vec::with_capacity(alloc, values.len())?;
    for value in values.as_slice() {
        list.push(value.copy(alloc)?)?;
    }
    list.sort_by_cached_key(order_of)?;
    Store::with_places(alloc, list, hasher)
}

// The bytes of its digest.
fn order_of(value: &Value) -> [u8; 32]
    ensures { result ≡ order_of value.now }
{
    value.digest().0
}
