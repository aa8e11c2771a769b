ghost use Rattle.std.specs.Prelude.{IfOk};
ghost use Rattle.carte_history.specs.Promises.{IsHistory};

use crate::show::show;
use crate::{Run, Shown};
use carte_io::{Gate, MemDisk};
use carte_value::{NoMemory, Seeded};
use std::alloc::Global;
use std::marker::Sync;
use std::thread::Threads;

/// Makes the runs one after another by the top call, over one state that is empty at first, and shows each. The next run
/// finds what the one before it left: all that it wrote, or what a crash leaves where it was cut off.
///
/// Where a device in memory lacks memory it fails, as does one that is meant to. Such a run is no run of a history, so `NoMemory`
/// comes where a run ends with status 4 or 5, or with status 6 where it isn't stopped or before as many writing calls passed as its
/// stop lets pass, or where standard error failed.
pub fn history<G: Gate, T: Threads + Sync>(
    rt: &T,
    alloc: Global,
    runs: &[Run],
    hasher: Seeded,
    gate: &G,
) -> Result<Vec<Shown>, NoMemory>
    ensures { IfOk result (λ shown. IsHistory 536870912 runs.now shown.items) }
{
    let mut disk = MemDisk::of(alloc, &[], &[])?;
    let mut shown = Vec::new(alloc);
    for run in runs {
        let one = show(rt, alloc, run, &mut disk, hasher, gate)?;
        shown.push(one)?;
    }
    Ok(shown)
}
