ghost use Rattle.std.specs.Prelude.{◌≡◌};
ghost use Rattle.carte_trim.specs.Around.{over_disk, over_sink};
ghost use Rattle.carte_trim.specs.Outcome.{IsRun};
ghost use Rattle.carte_trim.specs.Whole.{IsOutcome};

use crate::Status;
use crate::run::run;
use crate::say::report;
use carte_io::{Disk, Sink};
use carte_value::Seeded;
use carte_words::Word;
use std::alloc::Global;

/// All that the program does: reads the count in the words, loads the state, and commits to the new one what is left of it.
/// The reply is written to `out`, and where something went wrong one line to `err`.
///
/// No writing call of the state's disk is made, and none of the new one's before all memory but that of the reply was had.
/// Each file is limited to 536,870,912 bytes.
///
/// The maps of names are made with `hasher`, on which nothing that is answered depends.
pub fn trim<S: Disk, N: Disk, O: Sink, E: Sink>(
    alloc: Global,
    words: &[Word],
    state: &mut S,
    new: &mut N,
    out: &mut O,
    err: &mut E,
    hasher: Seeded,
) -> Status
    ensures { IsOutcome 536870912
        (record {
          words = words.now;
          state = over_disk S.tells S.story S.faults state.old state.new;
          new = over_disk N.tells N.story N.faults new.old new.new;
          out = over_sink O.tells O.state out.old out.new;
          err = over_sink E.tells E.state err.old err.new;
        })
        result }
{
    let status = run(alloc, words, state, new, out, hasher);
    report(alloc, err, status)
}
