//! The loop of a session: it reads a script, cuts it into lines, has a machine carry out each line as soon as its line
//! feed, or the script's end, was read, and writes and hands on each reply before the next line is carried out.
//!
//! The loop is generic over the source, the machine, the disk that is lent to each step, and the sink. What a machine does
//! with a line are ghost members of the trait `Machine`, so the clause `IsSession` says of any machine which lines it went
//! through, and what was written. It needs memory for the longest line and for one piece of 8,192 bytes, and takes some for
//! up to sixteen lines with their replies: a line that changed nothing is answered again without a step, as long as no other
//! changes something. That it would be answered so is passed on from line to line by the loop's contracts, since no field of a
//! machine can hold why.
//!
//! The clause is over every source, sink and disk, and no body can foresee which of their calls fails. So it fixes the
//! order of effects too: an end of the machine says that just the lines before were answered, a failed write that the
//! machine stands right behind its line. What was read stands outside of what the source tells, so that also over
//! standard input one text was cut, carried out and answered. No whole line waits for another read: behind its line feed
//! lie fewer bytes than the last read moved.
//!
//! A reply without bytes makes no call of the sink. Turned down: an end that hands on in any case, since a sink whose
//! first call fails must leave what the first line did. Turned down too: a search for the line feed in each piece. Each
//! byte is looked at once, whatever the reads bring.
//!
//! Each inner contract starts from any progress, so that nothing is glued together: a loop's invariant is the clause at
//! its index. `lines_of` gives the lines of a script as a function of its bytes, and the laws tie it to the clause.
#![tactic(auto)]

mod end;
mod known;
mod laws;
mod lines;
mod machine;
mod run;

pub use end::{SessionEnd, StepEnd};
pub use laws::{
    Soundness, all_lines, done_lines, lines_front, lines_leave, next_of, one_cut, too_long,
};
pub use machine::{Answer, Machine};
pub use run::run_session;
