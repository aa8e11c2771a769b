ghost use Rattle.std.specs.Prelude.{IfOk};
ghost use Rattle.carte_mark.specs.Passes.{IsRound, AreReached};

use crate::pass::pass;
use crate::walk::walk;
use carte_record::Kept;
use carte_value::{NoMemory, Numbering};
use std::alloc::Global;

/// How often the entries are passed over before a table of them is made.
const ROUNDS: usize = 2;

/// These names and all keys that lead to one of them.
pub(crate) fn reached(alloc: Global, kept: &Kept, names: Numbering) -> Result<Numbering, NoMemory>
    ensures { IfOk result (λ reached. AreReached kept.now names reached) }
{
    let mut reached = names;
    for _ in 0..ROUNDS {
        let done = round(kept, &mut reached)?;
        if done {
            return Ok(reached);
        }
    }
    walk(alloc, kept, reached)
}

// Behind the last key that the first pass puts all is there already, so the second needn't look there.
fn round(kept: &Kept, names: &mut Numbering) -> Result<bool, NoMemory>
    ensures { IfOk result (IsRound kept.now names.old names.new) }
{
    let end = pass(kept, kept.entries.len(), names)?;
    let end = pass(kept, end, names)?;
    Ok(end == 0)
}
