// Laws of what a file keeps.
ghost use Rattle.carte_state.specs.Folding.{BadAtOne, KeepsOne, KeepsOrBad, OldIsOne, OneIsOld};
ghost use Rattle.carte_state.specs.Histories.{HistoryKeeps};

/// A file keeps one thing at most.
pub fn keeps_one()
    ensures { KeepsOne }
{}

/// A file is bad at one offset at most.
pub fn bad_at_one()
    ensures { BadAtOne }
{}

/// A file that keeps something isn't bad.
pub fn keeps_or_bad()
    ensures { KeepsOrBad }
{}

/// What is kept in version 1 was made by bodies of that version, of which there is one at least.
pub fn old_is_one()
    ensures { OldIsOne }
{}

/// Bodies that are all of version 1 make what is kept in version 1, where there is one at least.
pub fn one_is_old()
    ensures { OneIsOld }
{}

/// What was acknowledged in any run of a history is kept by each file that a later run finds: with all of it in order,
/// and of each run perhaps some of the batches behind, whole and in order.
pub fn history_keeps()
    ensures { HistoryKeeps }
{}
