ghost use Rattle.std.specs.Prelude.{◌≡◌, ◌∷◌, ◌++◌, [], map, is_some, IfOk, OnOk, if◌then◌else◌};
ghost use Rattle.carte_table.specs.Lookups.{first_value};
ghost use Rattle.carte_value.specs.Spelling.{digest_of};
ghost use Rattle.carte_value.specs.declared.digest.Digest.{Digest as SomeDigest};
ghost use Rattle.carte_sound.specs.Lists.{EachOnce};

use carte_record::Store;
use carte_value::{Digest, NoMemory, Seeded, Value};
use std::alloc::Global;

/// The first value of each digest.
pub(crate) fn first_values(alloc: Global, values: &Store, hasher: Seeded) -> Result<Store, NoMemory>
    ensures first { IfOk result (λ list. (d : SomeDigest) → first_value list d ≡ first_value values.now d) }
    ensures once { IfOk result (λ list. EachOnce (map digest_of list)) }
{
    let mut list = Store::new(alloc, hasher);
    for value in values.as_slice() {
        put(alloc, &mut list, value)?;
    }
    Ok(list)
}

fn put(alloc: Global, list: &mut Store, value: &Value) -> Result<(), NoMemory>
    ensures { OnOk result (list.new ≡ (if is_some (first_value list.old (digest_of value.now)) then list.old else list.old ++ value.now ∷ [])) }
{
    let digest = value.digest();
    if list.find(&digest).is_some() {
        return Ok(());
    }
    list.push_with(value.copy(alloc)?, digest)
}
