// Laws of the live information.
ghost use Rattle.carte_compact.specs.Laws.{DueHasRoom, KeptThroughout, LiveIsKept, OneLive, StationsBehind, StepsBehind};

/// The live information makes of nothing just what is kept.
pub fn live_is_kept()
    ensures { LiveIsKept }
{}

/// What is kept has one live information: its batches are told by the lists, and so are their bytes.
pub fn one_live()
    ensures { OneLive }
{}

/// While a file is rewritten each image of it keeps what is kept.
pub fn kept_throughout()
    ensures { KeptThroughout }
{}

/// A rewriting and a batch behind it are steps one after another.
pub fn steps_behind()
    ensures { StepsBehind }
{}

/// At each moment of a rewriting and of a batch behind it, an image keeps what was kept, or what the batch makes of it.
pub fn stations_behind()
    ensures { StationsBehind }
{}

/// A rewriting that is due isn't refused for want of room.
pub fn due_has_room()
    ensures { DueHasRoom }
{}
