ghost use Rattle.std.specs.Prelude.{◌≡◌, IfOk};

use crate::{Digest, Items, Name, NoMemory, Same, Value};
use std::alloc::Global;

/// A name and the digest that its value had.
#[derive(Debug, Drop)]
pub struct Link {
    pub name: Name,
    pub digest: Digest,
}

/// A list of names.
pub type Names = Items<Name>;

/// A list of links.
pub type Links = Items<Link>;

/// A list of values.
pub type Values = Items<Value>;

impl Same for Name {
    fn same(&self, alloc: Global) -> Result<Name, NoMemory> {
        self.copy(alloc)
    }
}

impl Same for Value {
    fn same(&self, alloc: Global) -> Result<Value, NoMemory> {
        self.copy(alloc)
    }
}

impl Same for Link {
    fn same(&self, alloc: Global) -> Result<Link, NoMemory> {
        let name = self.name.copy(alloc)?;
        Ok(Link {
            name,
            digest: self.digest,
        })
    }
}
