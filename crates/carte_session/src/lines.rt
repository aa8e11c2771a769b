// The bytes of a script, cut into lines, each carried out as soon as it ends.
ghost use Rattle.std.specs.Prelude.{◌≡◌, ◌+◌, ◌<◌, ◌≤◌, ◌^◌, ◌++◌, ◌∷◌, [], ℕ, List, length, MatchResult, OnOk};
ghost use Rattle.carte_io.specs.Causes.{HasCause, HasCauseOf};
ghost use Rattle.carte_io.specs.Streams.{SinkState};
ghost use Rattle.carte_session.specs.Session.{Stopped};
ghost use Rattle.carte_session.specs.Carried.{Carried, Finished, Progress, Says, TakesOne, TakesSome};
ghost use Rattle.carte_session.specs.Staying.{AllAgain};

use crate::known::Known;
use crate::{Machine, SessionEnd};
use carte_io::{Failed, Sink, write_all};
use std::alloc::Global;
use std::marker::Sync;
use std::thread::Threads;

/// How many lines were carried out, the bytes of the next one so far, and what is known of lines that would be answered again.
#[derive(Drop)]
pub(crate) struct Lines {
    count: usize,
    rest: Vec<u8>,
    known: Known,
}

impl Lines {
    pub(crate) fn new(alloc: Global) -> Lines
        ensures none { (result.count ≡ 0) × (result.rest.items ≡ []) }
        ensures nothing { result.known.lines.items ≡ [] }
    {
        Lines {
            count: 0,
            rest: Vec::new(alloc),
            known: Known::new(alloc),
        }
    }

    /// Takes some more bytes, and carries out each line that ends in them.
    pub(crate) fn feed<D, M: Machine<D>, O: Sink, T: Threads + Sync>(
        &mut self,
        rt: &T,
        alloc: Global,
        bytes: &[u8],
        machine: &mut M,
        disk: &mut D,
        out: &mut O,
    ) -> Result<(), SessionEnd>
        requires on { M.goes_on machine.old }
        requires few { self.old.count + length bytes.now < 2 ^ 64 }
        requires known { AllAgain M.answers (machine.old, disk.old) self.old.known.lines.items }
        ensures fed { (m : M × D) (k : SinkState) (read : List ℕ)
            → Progress M.answers m (machine.old, disk.old) (record { tells = O.tells; old = k; new = O.state out.old })
            read self.old.count self.old.rest.items
            → MatchResult result
            (λ _. Progress M.answers m (machine.new, disk.new) (record { tells = O.tells; old = k; new = O.state out.new })
            (read ++ bytes.now) self.new.count self.new.rest.items)
            (λ end. Stopped M.answers M.ends m (machine.new, disk.new) (record { tells = O.tells; old = k; new = O.state out.new })
            (read ++ bytes.now) (length bytes.now) ⊥ end) }
        ensures on { OnOk result (M.goes_on machine.new) }
        ensures few { OnOk result (self.new.count ≤ self.old.count + length bytes.now) }
        ensures known { OnOk result (AllAgain M.answers (machine.new, disk.new) self.new.known.lines.items) }
        ensures cause { HasCauseOf SessionEnd.WriteFault (O.state out.old).faults (O.state out.new).faults result }
    {
        for byte in bytes {
            self.take_byte(rt, alloc, *byte, machine, disk, out)?;
        }
        Ok(())
    }

    fn take_byte<D, M: Machine<D>, O: Sink, T: Threads + Sync>(
        &mut self,
        rt: &T,
        alloc: Global,
        byte: u8,
        machine: &mut M,
        disk: &mut D,
        out: &mut O,
    ) -> Result<(), SessionEnd>
        requires on { M.goes_on machine.old }
        requires few { self.old.count + 1 < 2 ^ 64 }
        requires known { AllAgain M.answers (machine.old, disk.old) self.old.known.lines.items }
        ensures fed { (m : M × D) (k : SinkState) (read : List ℕ)
            → Progress M.answers m (machine.old, disk.old) (record { tells = O.tells; old = k; new = O.state out.old })
            read self.old.count self.old.rest.items
            → MatchResult result
            (λ _. Progress M.answers m (machine.new, disk.new) (record { tells = O.tells; old = k; new = O.state out.new })
            (read ++ byte ∷ []) self.new.count self.new.rest.items)
            (λ end. Stopped M.answers M.ends m (machine.new, disk.new) (record { tells = O.tells; old = k; new = O.state out.new })
            (read ++ byte ∷ []) 1 ⊥ end) }
        ensures on { OnOk result (M.goes_on machine.new) }
        ensures few { OnOk result (self.new.count ≤ self.old.count + 1) }
        ensures known { OnOk result (AllAgain M.answers (machine.new, disk.new) self.new.known.lines.items) }
        ensures cause { HasCauseOf SessionEnd.WriteFault (O.state out.old).faults (O.state out.new).faults result }
    {
        if byte == b'\n' {
            self.count += 1;
            carry_out(
                rt,
                alloc,
                self.count,
                self.rest.as_slice(),
                &mut self.known,
                machine,
                disk,
                out,
            )?;
            self.rest.clear();
        } else {
            self.rest.push(byte)?;
        }
        Ok(())
    }

    /// Carries out the last line, where it lacks its line feed.
    pub(crate) fn finish<D, M: Machine<D>, O: Sink, T: Threads + Sync>(
        &mut self,
        rt: &T,
        alloc: Global,
        machine: &mut M,
        disk: &mut D,
        out: &mut O,
    ) -> Result<(), SessionEnd>
        requires on { M.goes_on machine.old }
        requires few { self.old.count + 1 < 2 ^ 64 }
        requires known { AllAgain M.answers (machine.old, disk.old) self.old.known.lines.items }
        ensures finished { (m : M × D) (k : SinkState) (read : List ℕ)
            → Progress M.answers m (machine.old, disk.old) (record { tells = O.tells; old = k; new = O.state out.old })
            read self.old.count self.old.rest.items
            → MatchResult result
            (λ _. Finished M.answers m (machine.new, disk.new) (record { tells = O.tells; old = k; new = O.state out.new }) read)
            (λ end. Stopped M.answers M.ends m (machine.new, disk.new) (record { tells = O.tells; old = k; new = O.state out.new })
            read 0 (Unit {0}) end) }
        ensures cause { HasCauseOf SessionEnd.WriteFault (O.state out.old).faults (O.state out.new).faults result }
    {
        let line = self.rest.as_slice();
        if line.is_empty() {
            return Ok(());
        }
        carry_out(
            rt,
            alloc,
            self.count + 1,
            line,
            &mut self.known,
            machine,
            disk,
            out,
        )
    }
}

// One line, and its reply.
fn carry_out<D, M: Machine<D>, O: Sink, T: Threads + Sync>(
    rt: &T,
    alloc: Global,
    number: usize,
    line: &[u8],
    known: &mut Known,
    machine: &mut M,
    disk: &mut D,
    out: &mut O,
) -> Result<(), SessionEnd>
    requires on { M.goes_on machine.old }
    requires known { AllAgain M.answers (machine.old, disk.old) known.old.lines.items }
    ensures carried { Carried M.answers M.ends (machine.old, disk.old) (machine.new, disk.new)
        (record { tells = O.tells; old = O.state out.old; new = O.state out.new }) number line.now result }
    ensures on { OnOk result (M.goes_on machine.new) }
    ensures known { OnOk result (AllAgain M.answers (machine.new, disk.new) known.new.lines.items) }
    ensures cause { HasCauseOf SessionEnd.WriteFault (O.state out.old).faults (O.state out.new).faults result }
{
    if let Some(reply) = known.reply_to(line) {
        return told(out, reply.as_bytes());
    }
    let answer = machine.step(rt, alloc, disk, number, line)?;
    known.learn(alloc, line, &answer);
    told(out, answer.text.as_str().as_bytes())
}

fn told<O: Sink>(out: &mut O, reply: &[u8]) -> Result<(), SessionEnd>
    ensures says { MatchResult result
        (λ _. TakesOne (record { tells = O.tells; old = O.state out.old; new = O.state out.new }) reply.now)
        (λ end. (end ≡ SessionEnd.WriteFault) × TakesSome (record { tells = O.tells; old = O.state out.old; new = O.state out.new }) reply.now) }
    ensures cause { HasCauseOf SessionEnd.WriteFault (O.state out.old).faults (O.state out.new).faults result }
{
    match say(out, reply) {
        Ok(()) => Ok(()),
        Err(Failed) => Err(SessionEnd::WriteFault),
    }
}

// An empty reply makes no call, so that nothing is written before the first line that says something.
fn say<O: Sink>(out: &mut O, bytes: &[u8]) -> Result<(), Failed>
    ensures says { Says (record { tells = O.tells; old = O.state out.old; new = O.state out.new }) bytes.now result }
    ensures cause { HasCause (O.state out.old).faults (O.state out.new).faults result }
{
    if bytes.is_empty() {
        return Ok(());
    }
    write_all(out, bytes)?;
    out.finish()
}
