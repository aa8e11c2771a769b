ghost use Rattle.std.specs.Prelude.{◌≡◌, ◌<◌, ◌≤◌, ◌↔◌, [], length, IfOk, OnErr, MatchResult};
ghost use Rattle.carte_io.specs.Causes.{HasCause, counted};
ghost use Rattle.carte_io.specs.Streams.{Moves, SourceState};

use crate::Failed;

/// Where bytes come from.
pub trait Source {
    /// The type tells which bytes are left.
    ghost tells: { Type 0 };

    /// The bytes left, where it tells them; how often it failed, how many bytes its last read moved that passed, and
    /// how often it was read.
    ghost state: { Self → SourceState };

    /// Moves the first bytes left into the front of `into`, and gives their number. Into a buffer that
    /// isn't empty it moves at least one, except at the end. After `Failed` as many are left as before.
    fn read(&mut self, into: &mut [u8]) -> Result<usize, Failed>
        ensures bound { IfOk result (λ n. n ≤ length into.old) }
        ensures bytes { tells → IfOk result (λ n. Moves n (state self.old).left (state self.new).left into.old into.new) }
        ensures end { tells → 0 < length into.old → IfOk result (λ n. (n ≡ 0) ↔ ((state self.old).left ≡ [])) }
        ensures failed { tells → OnErr result ((state self.new).left ≡ (state self.old).left) }
        ensures last { MatchResult result (λ n. (state self.new).last ≡ n) (λ _. (state self.new).last ≡ (state self.old).last) }
        ensures reads { (state self.new).reads ≡ counted (state self.old).reads }
        ensures cause { HasCause (state self.old).faults (state self.new).faults result };
}
