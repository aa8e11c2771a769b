// Many commits.
ghost use Rattle.std.specs.Prelude.{◌≡◌, ◌+◌, ◌++◌, ◌↔◌, ℕ, List, false, IsTrue, OnOk, OnErr, Err};
ghost use Rattle.carte_io.specs.Causes.{HasCauseOf};
ghost use Rattle.carte_io.specs.Stations.{StepsThrough};
ghost use Rattle.carte_journal.specs.Frames.{BodyAt, Ends};
ghost use Rattle.carte_journal.specs.Journals.{IsAtRest, IsReadAs};
ghost use Rattle.carte_journal.specs.Runs.{EndsIn, FullIn, RestsAfter, calls_for, committed_all, placed, steps_of};

use crate::{CommitFault, Frame, Journal};
use carte_io::Disk;

/// Commits frames one after another, up to the first that is refused. Once one is acknowledged it stands in every
/// later image, also in those of the commits behind it.
pub fn commit_all<D: Disk>(
    journal: &mut Journal,
    disk: &mut D,
    frames: &[Frame],
) -> Result<(), CommitFault>
    requires { journal.old.broken ≡ false }

    ensures place { OnOk result (journal.new ≡ committed_all journal.old frames.now) }
    ensures full { (needed limit : ℕ) → result ≡ Err (CommitFault.Full needed limit) → FullIn journal.old frames.now journal.new needed limit }
    ensures broken { IsTrue journal.new.broken ↔ (result ≡ Err CommitFault.DiskFault) }
    ensures cause { HasCauseOf CommitFault.DiskFault (D.faults disk.old) (D.faults disk.new) result }

    ensures rest { D.tells → (bodies : List BodyAt) → IsAtRest journal.old bodies (D.story disk.old)
        → OnOk result (IsAtRest journal.new (bodies ++ placed journal.old frames.now) (D.story disk.new)) }
    ensures full_rest { D.tells → (bodies : List BodyAt) → IsAtRest journal.old bodies (D.story disk.old)
        → (needed limit : ℕ) → result ≡ Err (CommitFault.Full needed limit)
        → RestsAfter journal.old bodies frames.now journal.new (D.story disk.old) (D.story disk.new) }

    ensures calls { D.tells → OnOk result ((D.story disk.new).now.passed ≡ (D.story disk.old).now.passed + calls_for journal.old frames.now) }
    ensures ends { D.tells → OnErr result (EndsIn journal.old frames.now (D.story disk.old).now.passed (D.story disk.new).now.passed) }

    // Whether it ends early or not: at each moment an image has all the bodies of which the calls had passed.
    ensures steps { D.tells → (bodies : List BodyAt) → IsAtRest journal.old bodies (D.story disk.old)
        → StepsThrough (IsReadAs journal.old.limit) (Ends journal.old.gate bodies) (steps_of journal.old bodies frames.now)
        (D.story disk.old) (D.story disk.new) }
{
    for frame in frames {
        journal.commit(disk, frame)?;
    }
    Ok(())
}
