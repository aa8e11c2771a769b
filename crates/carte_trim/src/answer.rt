// The reply of a run that trimmed.
ghost use Rattle.carte_trim.specs.Around.{over_sink};
ghost use Rattle.carte_trim.specs.Parts.{Answers};
ghost use Rattle.carte_trim.specs.Texts.{reply};

use crate::Status;
use crate::cut::Counts;
use crate::say::{print, reply};
use carte_io::Sink;
use std::alloc::Global;

/// Tells how much is left, and of how much.
pub(crate) fn answer<O: Sink>(
    alloc: Global,
    counts: Counts,
    bytes: u64,
    of_bytes: u64,
    out: &mut O,
) -> Status
    ensures { Answers (reply counts.after counts.before bytes of_bytes) (over_sink O.tells O.state out.old out.new) result }
{
    match reply(alloc, counts.after, counts.before, bytes, of_bytes) {
        Ok(text) => print(out, text.as_str().as_bytes()),
        Err(_) => Status::NoMemory,
    }
}
