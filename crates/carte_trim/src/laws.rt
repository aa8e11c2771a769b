// Laws of what is trimmed, each as the contract of a function that does nothing.
ghost use Rattle.carte_trim.specs.Histories.{TrimsBetween};
ghost use Rattle.carte_trim.specs.Laws.{HeldAsBefore, NoneNewlyHeld, OneTrimmed, TrimmedBegins, TrimmedIsSound};

/// There is one trimmed information at most.
pub fn one_trimmed()
    ensures { OneTrimmed }
{}

/// It is sound for each history for which what is kept is.
pub fn trimmed_is_sound()
    ensures { TrimmedIsSound }
{}

/// A build marks the same keys and drops the same names over it, and what it begins with has the newest traces.
pub fn trimmed_begins()
    ensures { TrimmedBegins }
{}

/// A key that is held by a fresh entry, or by one of its newest traces, is held as before.
pub fn held_as_before()
    ensures { HeldAsBefore }
{}

/// No key is held that wasn't.
pub fn none_newly_held()
    ensures { NoneNewlyHeld }
{}

/// However many runs of `carte` follow one another over one state, from an empty file on, with trims between them after which
/// NEW stands in STATE's place, and wherever each is cut off by a crash: the file keeps what is sound for the books so far.
pub fn trims_between()
    ensures { TrimsBetween }
{}
