// Many batches.
ghost use Rattle.std.specs.Prelude.{◌≡◌, ◌+◌, ◌↔◌, false, IsTrue, OnOk, OnErr, Err};
ghost use Rattle.carte_io.specs.Causes.{HasCauseOf};
ghost use Rattle.carte_io.specs.Stations.{StepsThrough};
ghost use Rattle.carte_state.specs.Folding.{Keeps};
ghost use Rattle.carte_record.specs.Folds.{applied};
ghost use Rattle.carte_state.specs.Runs.{AreUnmarked, BeginAll, EndsIn, applied_to, calls_of_all, journal_behind, steps_of};
ghost use Rattle.carte_state.specs.States.{IsKeptOn, any_in, kept_in};

use crate::{ApplyFault, State};
use carte_io::Disk;
use carte_record::Batch;
use std::alloc::Global;

/// Applies batches one after another, up to the first that is refused: that one and those behind it are dropped. Once one
/// is acknowledged every later image keeps it, also those of the batches behind it.
pub fn apply_all<D: Disk>(
    state: &mut State,
    alloc: Global,
    disk: &mut D,
    batches: Vec<Batch>,
) -> Result<(), ApplyFault>
    requires whole { state.old.journal.broken ≡ false }
    requires unmarked { AreUnmarked batches.items }
    requires begins { BeginAll (any_in state.old) batches.items }

    ensures kept { OnOk result (kept_in state.new ≡ applied (kept_in state.old) batches.items) }
    ensures any { OnOk result (any_in state.new ≡ applied_to (any_in state.old) batches.items) }
    ensures place { OnOk result (state.new.journal ≡ journal_behind state.old.journal batches.items) }
    ensures broken { IsTrue state.new.journal.broken ↔ (result ≡ Err ApplyFault.DiskFault) }
    ensures cause { HasCauseOf ApplyFault.DiskFault (D.faults disk.old) (D.faults disk.new) result }

    ensures calls { D.tells → OnOk result ((D.story disk.new).now.passed ≡ (D.story disk.old).now.passed + calls_of_all state.old.journal batches.items) }
    ensures ends { D.tells → OnErr result (EndsIn state.old.journal batches.items (D.story disk.old).now.passed (D.story disk.new).now.passed) }
    ensures rest { D.tells → IsKeptOn state.old (D.story disk.old) → OnOk result (IsKeptOn state.new (D.story disk.new)) }

    // Whether it ends early or not: at each moment an image keeps all the batches of which the calls had passed.
    ensures steps { D.tells → IsKeptOn state.old (D.story disk.old)
        → StepsThrough (Keeps state.old.journal.limit) (any_in state.old) (steps_of state.old.journal (any_in state.old) batches.items)
        (D.story disk.old) (D.story disk.new) }
{
    for batch in batches {
        state.apply(alloc, disk, batch)?;
    }
    Ok(())
}
