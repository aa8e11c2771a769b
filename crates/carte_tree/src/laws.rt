//! Laws of meanings. Each is a function that does nothing, and whose contract is the law.

ghost use Rattle.carte_tree.specs.Laws.{StaticAsks, StaticEnds, StaticLooks, StaticNeeds, StaticRuns};

/// Whatever is answered, a static formula asks for the names that it mentions, in the order of the text.
pub fn static_asks()
    ensures { StaticAsks }
{}

/// A static formula looks up its references, each once and in order, up to and with the first that has no value.
pub fn static_needs()
    ensures { StaticNeeds }
{}

/// Where each reference of a static formula has a value, it looks up them all.
pub fn static_looks()
    ensures { StaticLooks }
{}

/// Where each reference of a static formula has a value, so has the formula.
pub fn static_ends()
    ensures { StaticEnds }
{}

/// Where each reference of a static formula has its value for an answer, the formula asks for nothing more and ends as over the truth.
pub fn static_runs()
    ensures { StaticRuns }
{}
