// The reply of a build, and why a line isn't answered.
ghost use Rattle.std.specs.Prelude.{◌≡◌, IfOk};
ghost use Rattle.carte_report.specs.Reply.{listed_lines, ran_lines};
ghost use Rattle.carte_shell.specs.Replies.{build_reply, said};
ghost use Rattle.carte_shell.specs.Stopping.{fault_of};

use crate::Reply;
use carte_engine::{Answer, ApplyFault, Built, Ran};
use carte_report::reply;
use carte_session::StepEnd;
use carte_value::{Names, NoMemory};
use std::alloc::Global;

/// The reply of a build, and what the build has made, where it has.
pub(crate) fn build_reply(
    alloc: Global,
    list: bool,
    targets: &Names,
    answer: Answer,
) -> Result<(Reply, Option<Built>), NoMemory>
    ensures { IfOk result (λ r. said r.0 ≡ build_reply list targets.now answer) }
{
    match answer {
        Answer::Built(built) => {
            let listed = listed(alloc, list, &built.ran)?;
            let text = reply(
                alloc,
                targets,
                &built.values,
                &listed,
                built.ran.len() as u64,
                built.given_up,
                built.reused,
            )?;
            Ok((Reply::plain(text), Some(built)))
        }
        Answer::Refused(reason, _) => Ok((Reply::refusal(alloc, reason)?, None)),
    }
}

// The names of the rules that ran, where they are to be listed.
fn listed(alloc: Global, list: bool, ran: &Ran) -> Result<Names, NoMemory>
    ensures { IfOk result (λ names. ran_lines names ≡ listed_lines list ran.now) }
{
    if list {
        ran.names(alloc)
    } else {
        Ok(Names::new(alloc))
    }
}

pub(crate) fn stopped(fault: ApplyFault) -> StepEnd
    ensures { fault_of result ≡ fault }
{
    match fault {
        ApplyFault::DiskFault => StepEnd::DiskFault,
        ApplyFault::Full { needed, limit } => StepEnd::StateFull(needed, limit),
        ApplyFault::NoMemory => StepEnd::NoMemory,
    }
}
