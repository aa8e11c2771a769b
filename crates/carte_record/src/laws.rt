ghost use Rattle.carte_record.specs.Empty.{EmptyChangesNothing};

/// An empty batch changes nothing that is kept.
pub fn empty_changes_nothing()
    ensures { EmptyChangesNothing }
{}
