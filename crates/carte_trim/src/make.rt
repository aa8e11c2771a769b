// Making the new file.
ghost use Rattle.std.specs.Prelude.{◌≡◌};
ghost use Rattle.carte_record.specs.Kept.{SomeKept, kept_view};
ghost use Rattle.carte_trim.specs.Around.{over_part};
ghost use Rattle.carte_trim.specs.New.{IsPlan};
ghost use Rattle.carte_trim.specs.Parts.{LengthOr, Makes};

use crate::Status;
use crate::plan::{MOST_STATE, Plan, planned};
use crate::write::write;
use carte_io::Disk;
use carte_record::Kept;
use std::alloc::Global;

/// Writes to a new file what it is to keep, and gives its length then. Where that is nothing, no call writes.
pub(crate) fn make<N: Disk>(alloc: Global, kept: &Kept, new: &mut N) -> Result<u64, Status>
    ensures { Makes 536870912 (kept_view kept.now) (over_part N.tells N.story N.faults new.old new.new) result }
{
    match planned(alloc, kept) {
        Ok(Some(plan)) => make_planned(plan, new),
        Ok(None) => length_of(new),
        Err(_) => Err(Status::NoMemory),
    }
}

fn make_planned<N: Disk>(plan: Plan, new: &mut N) -> Result<u64, Status>
    requires { (L : SomeKept) × IsPlan 536870912 L plan }
    ensures { (L : SomeKept) → IsPlan 536870912 L plan → Makes 536870912 L (over_part N.tells N.story N.faults new.old new.new) result }
{
    let needed = plan.needed();
    if needed > MOST_STATE {
        return Err(Status::Full(needed, MOST_STATE));
    }
    match write(new, plan) {
        Ok(()) => length_of(new),
        Err(_) => Err(Status::NewFault),
    }
}

fn length_of<N: Disk>(new: &mut N) -> Result<u64, Status>
    ensures length { LengthOr N.tells (N.story new.new) (N.faults new.old) (N.faults new.new) result }
    ensures same { N.tells → N.story new.new ≡ N.story new.old }
{
    match new.len() {
        Ok(length) => Ok(length),
        Err(_) => Err(Status::NewFault),
    }
}
