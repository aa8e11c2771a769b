ghost use Rattle.std.specs.Prelude.{◌≡◌, ◌+◌, ◌<◌, ◌≤◌, ◌^◌, ◌↔◌, [], length, IfOk, IfErr, OnErr};
ghost use Rattle.carte_io.specs.Causes.{HasCauseOf};
ghost use Rattle.carte_io.specs.Streams.{Moves};
ghost use Rattle.carte_session.specs.Session.{IsSession};

use crate::lines::Lines;
use crate::{Machine, SessionEnd};
use carte_io::{Sink, Source};
use std::alloc::Global;
use std::marker::Sync;
use std::thread::Threads;

// The most bytes of one read.
const PIECE: usize = 8192;

/// Reads the script to its end, or to one byte past the limit; carries out each line as soon as its line feed was read,
/// or the end where the last one lacks it; and writes and hands on the reply of each before the next is carried out.
pub fn run_session<S: Source, D, M: Machine<D>, O: Sink, T: Threads + Sync>(
    rt: &T,
    alloc: Global,
    script: &mut S,
    machine: &mut M,
    disk: &mut D,
    out: &mut O,
    limit: usize,
) -> Result<(), SessionEnd>
    requires goes_on { M.goes_on machine.old }
    requires limit { limit + 1 < 2 ^ 64 }
    ensures { IsSession M.answers M.ends (machine.old, disk.old) (machine.new, disk.new)
        (record { tells = S.tells; old = S.state script.old; new = S.state script.new })
        (record { tells = O.tells; old = O.state out.old; new = O.state out.new })
        limit result }
{
    let mut piece = [0; PIECE];
    let mut lines = Lines::new(alloc);
    let mut taken = 0;
    while taken < limit {
        let room = (limit - taken).min(PIECE);
        let count = read(script, &mut piece[..room])?;
        if count == 0 {
            return lines.finish(rt, alloc, machine, disk, out);
        }
        lines.feed(rt, alloc, &piece[..count], machine, disk, out)?;
        taken += count;
    }
    if read(script, &mut piece[..1])? > 0 {
        return Err(SessionEnd::TooLong);
    }
    lines.finish(rt, alloc, machine, disk, out)
}

fn read<S: Source>(script: &mut S, into: &mut [u8]) -> Result<usize, SessionEnd>
    ensures bound { IfOk result (λ n. n ≤ length into.old) }
    ensures bytes { S.tells → IfOk result (λ n. Moves n (S.state script.old).left (S.state script.new).left into.old into.new) }
    ensures end { S.tells → 0 < length into.old → IfOk result (λ n. (n ≡ 0) ↔ ((S.state script.old).left ≡ [])) }
    ensures failed { S.tells → OnErr result ((S.state script.new).left ≡ (S.state script.old).left) }
    ensures last { IfOk result (λ n. (S.state script.new).last ≡ n) }
    ensures fault { IfErr result (λ end. end ≡ SessionEnd.ReadFault) }
    ensures cause { HasCauseOf SessionEnd.ReadFault (S.state script.old).faults (S.state script.new).faults result }
{
    match script.read(into) {
        Ok(count) => Ok(count),
        Err(_) => Err(SessionEnd::ReadFault),
    }
}
