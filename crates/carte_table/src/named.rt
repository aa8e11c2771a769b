ghost use Rattle.std.specs.Prelude.{◌≡◌, IfOk};

use crate::{Firsts, Keyed};
use carte_value::{Name, Names, NoMemory, Seeded};
use std::alloc::Global;

impl Keyed for Name {
    ghost key_of = { λ k. k };

    fn key(&self) -> &Name {
        self
    }
}

/// Names in which one is looked up.
pub type NameTable = Firsts<Name>;

/// These names, with a table beside them.
pub fn name_table(alloc: Global, names: &Names, hasher: Seeded) -> Result<NameTable, NoMemory>
    ensures { IfOk result (λ table. table ≡ names.now) }
{
    let mut table = NameTable::with_room(alloc, names.len(), hasher)?;
    for name in names.as_slice() {
        table.push(name.copy(alloc)?)?;
    }
    Ok(table)
}
