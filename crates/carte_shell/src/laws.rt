// Laws of whole sessions, each as the contract of a function that does nothing.
ghost use Rattle.carte_session.specs.Laws.{SessionSeen};
ghost use Rattle.carte_shell.specs.Answers.{Answers, Ends};
ghost use Rattle.carte_shell.specs.Lasting.{SessionIsDone};
ghost use Rattle.carte_shell.specs.Scenes.{scene};
ghost use Rattle.carte_shell.specs.Sound.{EndLeavesSound, LinesStaySound, SessionStaysSound};

use carte_io::{Disk, Sink, Source};

/// Lines that are answered leave the state sound for the history with the books that they look at.
pub fn lines_stay_sound<D: Disk>()
    ensures { LinesStaySound D.tells }
{}

/// A line that isn't answered leaves only sound files, too.
pub fn end_leaves_sound<D: Disk>()
    ensures { EndLeavesSound D.tells }
{}

/// So does each session, whatever its end.
pub fn session_stays_sound<S: Source, D: Disk, O: Sink>()
    ensures { SessionStaysSound D.tells S.tells O.tells }
{}

/// A session of a shell beside its disk is one of scenes, in whose terms its lines are answered.
pub fn session_of_scenes<S: Source, D: Disk, O: Sink>()
    ensures { SessionSeen (scene D.story D.faults) (Answers D.tells) (Ends D.tells) S.tells O.tells }
{}

/// A session of a script within the limit comes to its end, or memory runs out, where there is room for each batch that a
/// line may bring and no device fails.
pub fn session_is_done<S: Source, D: Disk, O: Sink>()
    ensures { SessionIsDone D.tells S.tells O.tells }
{}
