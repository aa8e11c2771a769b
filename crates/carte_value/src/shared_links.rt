ghost use Rattle.std.specs.Prelude.{◌≡◌, ◌==◌, length, IfOk};

use crate::{Link, Links, NoMemory};
use std::alloc::Global;
use std::marker::Model;
use std::sync::Arc;

/// Links that all copies share, seen as these links: a copy takes no memory.
#[derive(Debug, Drop)]
pub struct SharedLinks {
    links: Arc<Links>,
}

impl Model for SharedLinks {
    ghost use Rattle.std.specs.Prelude.{List};
    ghost use Rattle.std.specs.Arc.{arc_value};
    ghost use Rattle.carte_value.specs.declared.link.Link.{Link};

    ghost Value = { List Link };

    ghost view = { λ s. arc_value s.links };
}

impl SharedLinks {
    /// These links, in a place that copies will share.
    pub fn of(alloc: Global, links: Links) -> Result<SharedLinks, NoMemory>
        ensures { IfOk result (λ shared. shared ≡ links) }
    {
        let links = Arc::new(alloc, links)?;
        Ok(SharedLinks { links })
    }

    /// A second one, which shares the links. There is no memory where as many share them as can be counted.
    pub fn copy(&self) -> Result<SharedLinks, NoMemory>
        ensures { IfOk result (λ copy. copy ≡ self.now) }
    {
        let links = self.links.clone()?;
        Ok(SharedLinks { links })
    }

    /// How many links there are.
    pub fn len(&self) -> usize
        ensures number { result ≡ length self.now }
    {
        self.links.len()
    }

    pub fn is_empty(&self) -> bool
        ensures { result ≡ (length self.now == 0) }
    {
        self.links.is_empty()
    }

    /// The links.
    pub fn list(&self) -> &Links
        ensures { result.now ≡ self.now }
    {
        &self.links
    }

    /// The links as a slice.
    pub fn as_slice(&self) -> &[Link]
        ensures { result.now ≡ self.now }
    {
        self.links.as_slice()
    }
}
