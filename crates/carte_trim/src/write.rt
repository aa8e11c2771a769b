// Writing a new file.
ghost use Rattle.std.specs.Prelude.{◌≡◌, ◌≤◌, ◌∷◌, [], false, List, ℕ, OnOk};
ghost use Rattle.carte_io.specs.Causes.{HasCause};
ghost use Rattle.carte_io.specs.Disk.{LeavesOnly};
ghost use Rattle.carte_io.specs.Stations.{StepsThrough};
ghost use Rattle.carte_journal.specs.Frames.{BodyAt, Ends};
ghost use Rattle.carte_journal.specs.Journals.{IsAtRest, IsReadAs};
ghost use Rattle.carte_journal.specs.Regions.{IsPlannedOn, IsRegionOf, IsRewritable, placed_at, region_end, rewritten, step_to};
ghost use Rattle.carte_record.specs.Kept.{SomeKept};
ghost use Rattle.carte_state.specs.Folding.{Keeps};
ghost use Rattle.carte_state.specs.Versions.{InTwo};
ghost use Rattle.carte_trim.specs.New.{IsNew, IsPlan, KeepsEither};

use crate::plan::Plan;
use carte_io::{Disk, Failed};
use carte_journal::{Journal, Region};

/// Writes what is planned, for which there is room: 10 writing calls. At each moment an image of the file keeps nothing, or
/// all of it. It takes no memory.
pub(crate) fn write<N: Disk>(disk: &mut N, plan: Plan) -> Result<(), Failed>
    requires room { region_end plan.region ≤ 536870912 }
    requires plan { (L : SomeKept) × IsPlan 536870912 L plan }
    ensures keeps { N.tells → IsNew (N.story disk.old) → (L : SomeKept) → IsPlan 536870912 L plan → OnOk result (Keeps 536870912 (InTwo L) (N.story disk.new).now.reads) }
    ensures leaves { N.tells → IsNew (N.story disk.old) → (L : SomeKept) → IsPlan 536870912 L plan
        → LeavesOnly (N.story disk.old) (N.story disk.new) (KeepsEither 536870912 L) }
    ensures cause { HasCause (N.faults disk.old) (N.faults disk.new) result }
{
    let Plan {
        mut journal,
        frame,
        region,
    } = plan;
    match journal.commit(disk, &frame) {
        Ok(()) => turn(disk, &mut journal, &region),
        Err(_) => Err(Failed),
    }
}

fn turn<N: Disk>(disk: &mut N, journal: &mut Journal, region: &Region) -> Result<(), Failed>
    requires whole { journal.old.broken ≡ false }
    requires planned { IsPlannedOn journal.old region.now }
    requires rewritable { IsRewritable journal.old }
    requires room { region_end region.now ≤ journal.old.limit }
    ensures ok { N.tells → (bodies : List BodyAt) (new : List (List ℕ)) → IsAtRest journal.old bodies (N.story disk.old) → IsRegionOf region.now new
        → OnOk result (IsAtRest (rewritten journal.old region.now) (placed_at region.now.at new) (N.story disk.new)) }
    ensures any_moment { N.tells → (bodies : List BodyAt) (new : List (List ℕ)) → IsAtRest journal.old bodies (N.story disk.old) → IsRegionOf region.now new
        → StepsThrough (IsReadAs journal.old.limit) (Ends journal.old.gate bodies) (step_to region.now new ∷ []) (N.story disk.old) (N.story disk.new) }
    ensures cause { HasCause (N.faults disk.old) (N.faults disk.new) result }
{
    match journal.rewrite(disk, region) {
        Ok(()) => Ok(()),
        Err(_) => Err(Failed),
    }
}
