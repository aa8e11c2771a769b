ghost use Rattle.carte_value.specs.Areas.{EachCellOnce, CellsWithin};

/// The names of an area are different.
pub fn each_cell_once()
    ensures { EachCellOnce }
{}

/// The names of an area are those of the cells between its sides.
pub fn cells_within()
    ensures { CellsWithin }
{}
