// The last request of a process.
ghost use Rattle.std.specs.Prelude.{◌≡◌, false, MatchResult};
ghost use Rattle.carte_book.specs.Book.{book_view};
ghost use Rattle.carte_words.specs.declared.line.Line.TheVariants.{Build as build_line};

use crate::stops::stopped;
use crate::{Reply, Shell};
use carte_io::Disk;
use carte_session::StepEnd;
use carte_value::Names;
use carte_wave::Gate;
use carte_words::Line;
use std::alloc::Global;
use std::marker::Sync;
use std::mem::forget;
use std::thread::Threads;

impl Shell {
    ghost use Rattle.carte_shell.specs.Answers.{Breaks, NamesInput, Obeys};
    ghost use Rattle.carte_shell.specs.Last.{Leads};
    ghost use Rattle.carte_shell.specs.Replies.{said};
    ghost use Rattle.carte_shell.specs.Scenes.{scene};

    /// Carries out a request as `obey` does, as the last one of a process: the shell is let go behind it. So what the batches of
    /// a build make of what is kept isn't put together in memory where that can be spared (`Engine::commit_last`).
    pub fn obey_last<D: Disk, G: Gate, T: Threads + Sync>(
        self,
        rt: &T,
        alloc: Global,
        disk: &mut D,
        line: Line,
        gate: &G,
    ) -> Result<Reply, StepEnd>
        requires whole { self.engine.journal.broken ≡ false }
        requires named { NamesInput (book_view self.book).kind line }
        ensures { MatchResult result
            (λ reply. Leads (D.story disk.new) (D.faults disk.new) (Obeys D.tells (scene D.story D.faults (self, disk.old)) line (said reply)))
            (λ end. Leads (D.story disk.new) (D.faults disk.new) (Breaks D.tells (scene D.story D.faults (self, disk.old)) line end)) }
    {
        let mut shell = self;
        let result = shell.obey_once(rt, alloc, disk, line, gate);
        // The process ends behind this: giving back what is kept, name by name, would only take time.
        forget(shell);
        result
    }

    fn obey_once<D: Disk, G: Gate, T: Threads + Sync>(
        &mut self,
        rt: &T,
        alloc: Global,
        disk: &mut D,
        line: Line,
        gate: &G,
    ) -> Result<Reply, StepEnd>
        requires whole { self.old.engine.journal.broken ≡ false }
        requires named { NamesInput (book_view self.old.book).kind line }
        ensures { MatchResult result
            (λ reply. Leads (D.story disk.new) (D.faults disk.new) (Obeys D.tells (scene D.story D.faults (self.old, disk.old)) line (said reply)))
            (λ end. Leads (D.story disk.new) (D.faults disk.new) (Breaks D.tells (scene D.story D.faults (self.old, disk.old)) line end)) }
    {
        match line {
            Line::Build(targets) => self.build_once(rt, alloc, disk, &targets, gate),
            line => self.obey(rt, alloc, disk, line, gate),
        }
    }

    fn build_once<D: Disk, G: Gate, T: Threads + Sync>(
        &mut self,
        rt: &T,
        alloc: Global,
        disk: &mut D,
        targets: &Names,
        gate: &G,
    ) -> Result<Reply, StepEnd>
        requires whole { self.old.engine.journal.broken ≡ false }
        ensures { MatchResult result
            (λ reply. Leads (D.story disk.new) (D.faults disk.new) (Obeys D.tells (scene D.story D.faults (self.old, disk.old)) (build_line targets.now) (said reply)))
            (λ end. Leads (D.story disk.new) (D.faults disk.new) (Breaks D.tells (scene D.story D.faults (self.old, disk.old)) (build_line targets.now) end)) }
    {
        self.know_digests(rt, alloc)?;
        let (batches, reply, _) = self.worked_out(rt, alloc, targets, gate)?;
        self.watch = None;
        match self.engine.commit_last(alloc, disk, batches) {
            Ok(()) => Ok(reply),
            Err(fault) => Err(stopped(fault)),
        }
    }
}
