ghost use Rattle.std.specs.Prelude.{◌≡◌, IfOk, IsTrue};
ghost use Rattle.carte_name.specs.Names.{is_cell_name};
ghost use Rattle.carte_value.specs.Areas.{area_of, IsArea};

use carte_value::{Area, Name, NoMemory};
use std::alloc::Global;
use std::marker::Model;

/// The name of a cell of a sheet.
#[derive(Debug, Drop)]
pub struct Cell {
    name: Name,
}

impl Model for Cell {
    ghost use Rattle.std.specs.Prelude.{ℕ, List, IsTrue};
    ghost use Rattle.carte_name.specs.Names.{is_cell_name};

    ghost Value = { List ℕ };

    ghost view = { λ c. c.name };

    ghost invariant = { λ c. IsTrue (is_cell_name c.name) };
}

impl Cell {
    /// The cell of this name.
    pub fn new(name: Name) -> Cell
        requires { IsTrue (is_cell_name name) }
        ensures { result ≡ name }
    {
        Cell { name }
    }

    /// The same cell. It shares the name's text.
    pub fn copy(&self, alloc: Global) -> Result<Cell, NoMemory>
        ensures { IfOk result (λ c. c ≡ self.now) }
    {
        let name = self.name.copy(alloc)?;
        Ok(Cell { name })
    }

    /// Its name.
    pub fn into_name(self) -> Name
        ensures { result ≡ self }
    {
        self.name
    }

    /// The range that begins or ends with this cell and the other.
    pub fn to(&self, other: &Cell) -> Area
        ensures area { result ≡ area_of self.now other.now }
        ensures valid { IsArea result }
    {
        match Area::of(&self.name, &other.name) {
            Some(area) => area,
            None => unreachable!(),
        }
    }
}
