ghost use Rattle.std.specs.Prelude.{IfOk};
ghost use Rattle.carte_bench.specs.Held.{spots_of, book_of};
ghost use Rattle.carte_bench.specs.Waits.{onward};
ghost use Rattle.carte_progress.specs.Reasons.{FirstReason};

use carte_bench::Bench;
use carte_book::Reason;
use carte_effect::Job;
use carte_value::{Name, NoMemory};
use std::alloc::Global;

/// The path of waits of the first target that has one.
pub fn first_reason<J: Job + Drop>(
    alloc: Global,
    bench: &Bench<'_, J>,
    targets: &[Name],
) -> Result<Option<Reason>, NoMemory>
    ensures { IfOk result (FirstReason (onward (book_of bench.now) (spots_of bench.now)) targets.now) }
{
    for at in 0..targets.len() {
        if let Some(reason) = bench.reason(alloc, &targets[at])? {
            return Ok(Some(reason));
        }
    }
    Ok(None)
}
