ghost use Rattle.carte_name.specs.Places.{CellsByPlace};

/// Each cell of the sheet has one name, and each name of a cell is that of one place.
pub fn cells_by_place()
    ensures { CellsByPlace }
{}
