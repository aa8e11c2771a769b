ghost use Rattle.std.specs.Prelude.{◌≡◌, ◌++◌, ◌<◌, ◌≤◌, ◌+◌, length, IfOk, OnOk};
ghost use Rattle.carte_effect.specs.Ledger.{no_runs};
ghost use Rattle.carte_wave.specs.Drives.{DroveAll};
ghost use Rattle.carte_wave.specs.Parts.{jobs_in};

use crate::{Gate, Jobs, Wave};
use carte_effect::{Digests, Job, Look};
use carte_value::{NoMemory, Seeded};
use std::alloc::Global;
use std::collections::VecDeque;

/// Neighbouring jobs of a wave.
#[derive(Drop)]
pub(crate) struct Part<J> {
    pub(crate) number: usize,
    pub(crate) jobs: Jobs<J>,
}

/// The jobs in so many neighbouring parts, whose lengths differ by one at most.
pub(crate) fn cut<J: Drop>(
    alloc: Global,
    mut jobs: Jobs<J>,
    count: usize,
) -> Result<Vec<Part<J>>, NoMemory>
    requires { 0 < count }
    ensures jobs { IfOk result (λ parts. jobs_in parts.items ≡ jobs.items) }
    ensures count { IfOk result (λ parts. length parts.items ≡ count) }
{
    let mut parts = Vec::new(alloc);
    let last = count - 1;
    for number in 0..last {
        let size = jobs.len().div_ceil(count - number);
        let front = front(alloc, &mut jobs, size)?;
        parts.push(Part {
            number,
            jobs: front,
        })?;
    }
    parts.push(Part { number: last, jobs })?;
    Ok(parts)
}

// Takes the first jobs off, as many as are wanted, or all.
fn front<J: Drop>(alloc: Global, jobs: &mut Jobs<J>, size: usize) -> Result<Jobs<J>, NoMemory>
    ensures { IfOk result (λ front. front.items ++ jobs.new.items ≡ jobs.old.items) }
{
    let mut front = VecDeque::new(alloc);
    for _ in 0..size {
        if let Some(job) = jobs.pop_front() {
            front.push_back(job)?;
        }
    }
    Ok(front)
}

/// Drives each job of a part once, one after another.
pub(crate) fn drive_part<J: Job + Drop, L: Look, G: Gate>(
    alloc: Global,
    part: Part<J>,
    look: &L,
    hasher: Seeded,
    gate: &G,
) -> Result<Wave<J>, NoMemory>
    ensures { IfOk result (λ w. DroveAll J.name J.started J.gives (L.sight look.now) part.jobs.items w.driven.items no_runs w.runs) }
{
    let Part { number, jobs } = part;
    let mut digests = Digests::new(alloc, hasher);
    drive_jobs(alloc, number, jobs, look, &mut digests, gate)
}

/// Drives each of these jobs once, one after another, as the part with this number. Digests that were taken before spare work.
pub(crate) fn drive_jobs<J: Job + Drop, L: Look, G: Gate>(
    alloc: Global,
    number: usize,
    mut jobs: Jobs<J>,
    look: &L,
    digests: &mut Digests,
    gate: &G,
) -> Result<Wave<J>, NoMemory>
    ensures { IfOk result (λ w. DroveAll J.name J.started J.gives (L.sight look.now) jobs.items w.driven.items no_runs w.runs) }
{
    let mut wave = Wave::new(alloc);
    if !jobs.is_empty() {
        gate.enter(number);
    }
    'jobs: while let Some(job) = jobs.pop_front() {
        wave.drive_one(alloc, job, look, digests)?;
    }
    Ok(wave)
}
