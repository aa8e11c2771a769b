ghost use Rattle.std.specs.Prelude.{◌≡◌, ◌<◌, ◌≤◌, false, ℕ, length, slice_index_or, IfOk};
ghost use Rattle.carte_effect.specs.Ledger.{no_runs};
ghost use Rattle.carte_wave.specs.Drives.{DroveAll};
ghost use Rattle.carte_wave.specs.Parts.{DrivesEach, AllPassed, driven_in, runs_in};

use crate::parts::{Part, cut, drive_part};
use crate::{Gate, Jobs, Wave};
use carte_effect::{Job, Look};
use carte_value::{NoMemory, Seeded};
use std::alloc::Global;
use std::marker::{Send, Sync};
use std::thread;
use std::thread::Threads;

/// The fewest jobs for which a thread is worth its while: a fork costs as much as some fifty cheap jobs.
const WORTH: usize = 64;

/// Drives each job once over what the look shows, in at most so many threads, and one at least. Where a job has no memory
/// its outcome says so; where the wave has none, the jobs are given up.
pub fn run_wave<J: Job + Send + Drop, L: Look + Sync, G: Gate, T: Threads + Sync>(
    rt: &T,
    alloc: Global,
    jobs: Jobs<J>,
    look: &L,
    hasher: Seeded,
    workers: usize,
    gate: &G,
) -> Result<Wave<J>, NoMemory>
    ensures { IfOk result (λ w. DroveAll J.name J.started J.gives (L.sight look.now) jobs.items w.driven.items no_runs w.runs) }
{
    let count = part_count(jobs.len(), workers, gate.wants_all());
    let parts = cut(alloc, jobs, count)?;
    let waves = drive_parts(rt, alloc, parts, look, hasher, gate)?;
    gather(alloc, waves)
}

/// How many parts so many jobs have: no more than there are workers, and one where they are few and the gate doesn't ask.
pub(crate) fn part_count(jobs: usize, workers: usize, all: bool) -> usize
    ensures some { 0 < result }
    ensures most { 0 < workers → result ≤ workers }
    ensures few { all ≡ false → jobs < 128 → result ≡ 1 }
{
    let most = if all { jobs } else { jobs / WORTH };
    most.min(workers).max(1)
}

fn drive_parts<J: Job + Send + Drop, L: Look + Sync, G: Gate, T: Threads + Sync>(
    rt: &T,
    alloc: Global,
    parts: Vec<Part<J>>,
    look: &L,
    hasher: Seeded,
    gate: &G,
) -> Result<Vec<Result<Wave<J>, NoMemory>>, NoMemory>
    ensures len { IfOk result (λ waves. length waves.items ≡ length parts.items) }
    ensures each { IfOk result (λ waves. DrivesEach J.name J.started J.gives (L.sight look.now) parts.items waves.items) }
{
    let waves = thread::map_vec(
        rt,
        parts,
        &|part| drive_part(alloc, part, look, hasher, gate),
    )?;
    Ok(waves)
}

// What the parts came to, one behind the other.
fn gather<J: Job + Drop>(
    alloc: Global,
    waves: Vec<Result<Wave<J>, NoMemory>>,
) -> Result<Wave<J>, NoMemory>
    ensures passed { IfOk result (λ _. AllPassed waves.items) }
    ensures driven { IfOk result (λ w. w.driven.items ≡ driven_in waves.items) }
    ensures runs { IfOk result (λ w. w.runs ≡ runs_in waves.items) }
{
    let mut whole = Wave::new(alloc);
    for wave in waves {
        whole.append(wave?)?;
    }
    Ok(whole)
}
