ghost use Rattle.std.specs.Prelude.{◌≡◌, ◌++◌, length, IfOk, IfSome, OnOk};
ghost use Rattle.carte_name.specs.Places.{IsPlace};
ghost use Rattle.carte_value.specs.Areas.{row_cells, cells_of, size_of, IsArea, IsAreaMade};

use crate::{Name, Names, NoMemory};
use std::alloc::Global;

/// A rectangle of cells. Columns and rows are counted from 1.
#[derive(Clone, Copy, Debug, PartialEq, Eq)]
pub struct Area {
    pub left: u32,
    pub top: u32,
    pub right: u32,
    pub bottom: u32,
}

impl Area {
    /// The area between two opposite corners, where both are cells. It takes no memory.
    pub fn of(a: &Name, b: &Name) -> Option<Area>
        ensures made { IsAreaMade a.now b.now result }
        ensures area { IfSome result (λ area. IsArea area) }
    {
        let (column_a, row_a) = a.place()?;
        let (column_b, row_b) = b.place()?;
        Some(Area {
            left: column_a.min(column_b),
            top: row_a.min(row_b),
            right: column_a.max(column_b),
            bottom: row_a.max(row_b),
        })
    }

    /// How many cells it has.
    pub fn size(&self) -> u64
        requires { IsArea self.now }
        ensures size { result ≡ size_of self.now }
        ensures number { result ≡ length (cells_of self.now) }
    {
        (self.right + 1 - self.left) as u64 * (self.bottom + 1 - self.top) as u64
    }

    /// Its cells row by row, each row from left to right.
    pub fn names(&self, alloc: Global) -> Result<Names, NoMemory>
        requires { IsArea self.now }
        ensures { IfOk result (λ names. names ≡ cells_of self.now) }
    {
        let mut names = Names::new(alloc);
        for row in self.top..self.bottom + 1 {
            self.push_row(alloc, row, &mut names)?;
        }
        Ok(names)
    }

    fn push_row(&self, alloc: Global, row: u32, names: &mut Names) -> Result<(), NoMemory>
        requires area { IsArea self.now }
        requires row { IsPlace self.now.left row }
        ensures { OnOk result (names.new ≡ names.old ++ row_cells self.now row) }
    {
        for column in self.left..self.right + 1 {
            names.push(Name::cell_at(alloc, column, row)?)?;
        }
        Ok(())
    }
}
