ghost use Rattle.std.specs.Prelude.{◌≡◌, IfOk};
ghost use Rattle.carte_value.specs.Areas.{IsArea, cells_of};

use carte_value::{Area, Names, NoMemory};
use std::alloc::Global;
use std::marker::Model;

/// A range of a formula: an area whose corners lie in the sheet.
#[derive(Drop)]
pub(crate) struct Range {
    area: Area,
}

impl Model for Range {
    ghost use Rattle.carte_value.specs.declared.area.Area.{Area};
    ghost use Rattle.carte_value.specs.Areas.{IsArea};

    ghost Value = { Area };

    ghost view = { λ r. r.area };

    ghost invariant = { λ r. IsArea r.area };
}

impl Range {
    pub(crate) fn of(area: Area) -> Range
        requires { IsArea area }
        ensures { result ≡ area }
    {
        Range { area }
    }

    pub(crate) fn copy(&self) -> Range
        ensures { result ≡ self.now }
    {
        Range { area: self.area }
    }

    /// Its cells, row by row.
    pub(crate) fn names(&self, alloc: Global) -> Result<Names, NoMemory>
        ensures { IfOk result (λ ks. ks ≡ cells_of self.now) }
    {
        self.area.names(alloc)
    }
}
