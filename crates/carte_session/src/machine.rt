ghost use Rattle.std.specs.Prelude.{◌≡◌, ℕ, List, true, IfOk, MatchResult, OnOk, string_bytes};
ghost use Rattle.carte_session.specs.Staying.{Stays};

use crate::StepEnd;
use std::alloc::Global;
use std::marker::Sync;
use std::thread::Threads;

/// What a machine answers to a line.
#[derive(Debug, Drop)]
pub struct Answer {
    /// The reply.
    pub text: String,
    /// Whether the line changed nothing, so that it would be answered so again.
    pub stays: bool,
}

/// What carries out the lines of a session, over a disk that is lent to each step.
pub trait Machine<D> {
    ghost use Rattle.carte_session.specs.declared.end.StepEnd.{StepEnd as End};
    ghost use Rattle.std.specs.Thread.{IsSync};

    /// A line of this number takes machine and disk from the first value to the last, and is answered so.
    ghost answers: { Self × D → ℕ → List ℕ → List ℕ → Self × D → Type 0 };

    /// A line of this number takes machine and disk from the first value to the last, and isn't answered, for this reason.
    ghost ends: { Self × D → ℕ → List ℕ → End → Self × D → Type 0 };

    /// It can carry out a line.
    ghost goes_on: { Self → Type 0 };

    /// Carries out a line, without its line feed, and gives its reply. All lines are counted, from 1. What it does may have
    /// threads of `rt`. A line that it says would be answered so again isn't handed to it before another changes something.
    fn step<T: Threads + Sync>(
        &mut self,
        rt: &T,
        alloc: Global,
        disk: &mut D,
        number: usize,
        line: &[u8],
    ) -> Result<Answer, StepEnd>
        requires on { goes_on self.old }
        requires threads { IsSync T.row }
        ensures carried { MatchResult result
            (λ answer. answers (self.old, disk.old) number line.now (string_bytes answer.text) (self.new, disk.new))
            (λ end. ends (self.old, disk.old) number line.now end (self.new, disk.new)) }
        ensures stays { IfOk result (λ answer. answer.stays ≡ true → Stays answers (self.old, disk.old) line.now (string_bytes answer.text) (self.new, disk.new)) }
        ensures on { OnOk result (goes_on self.new) };
}
