// Laws of lines and of sessions, each as the contract of a function that does nothing.
ghost use Rattle.carte_session.specs.Laws.{AllLines, DoneLines, LinesFront, NextOf, OneCut, TooLongIsLonger};
ghost use Rattle.carte_session.specs.Leaving.{LinesLeave};
ghost use Rattle.std.specs.Prelude.{ℕ, List};

use crate::Machine;
use carte_io::{Disk, Sink, Source};

/// Bytes are cut into lines in one way.
pub fn one_cut()
    ensures { OneCut }
{}

/// All lines of a script are the lines of its bytes.
pub fn all_lines()
    ensures { AllLines }
{}

/// Whole lines at the front of a script are its first lines.
pub fn lines_front()
    ensures { LinesFront }
{}

/// The next line of what was read is the next one of the whole script.
pub fn next_of()
    ensures { NextOf }
{}

/// A script that is too long has more bytes than the limit.
pub fn too_long<S: Source, D, M: Machine<D>, O: Sink>()
    ensures { TooLongIsLonger M.answers M.ends S.tells O.tells }
{}

/// A script that was done is within the limit, and each of its lines was carried out and answered.
pub fn done_lines<S: Source, D, M: Machine<D>, O: Sink>()
    ensures { DoneLines M.answers M.ends S.tells O.tells }
{}

/// What a file has to have while lines are carried out.
pub trait Soundness {
    /// What it asks of the lines so far.
    ghost is_good: { List (List ℕ) → Type 0 };

    /// A file is sound for the lines so far.
    ghost is_sound: { List (List ℕ) → List ℕ → Type 0 };
}

/// Where each line that is answered leaves only sound files, all lines do.
pub fn lines_leave<D: Disk, M: Machine<D>, K: Soundness>()
    ensures { LinesLeave M.answers (λ (m : M × D). D.story m.1) K.is_good K.is_sound }
{}
