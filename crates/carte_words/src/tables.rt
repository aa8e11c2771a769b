// The values that the arguments may have, one table each.
ghost use Rattle.std.specs.Prelude.{◌≡◌};
ghost use Rattle.carte_words.specs.Tables.{command_named, scheduler_named, rebuilder_named, kind_named, kind_by_ending};

use crate::{Command, Rebuilder4, Scheduler4};
use carte_value::Kind;

pub(crate) fn command_named(text: &str) -> Option<Command>
    ensures { result ≡ command_named text.now }
{
    match text {
        "build" => Some(Command::Build),
        "session" => Some(Command::Session),
        "explain" => Some(Command::Explain),
        "clean" => Some(Command::Clean),
        "generate" => Some(Command::Generate),
        _ => None,
    }
}

pub(crate) fn scheduler_named(text: &str) -> Option<Scheduler4>
    ensures { result ≡ scheduler_named text.now }
{
    match text {
        "topological" => Some(Scheduler4::Topological),
        "restarting" => Some(Scheduler4::Restarting),
        "suspending" => Some(Scheduler4::Suspending),
        _ => None,
    }
}

pub(crate) fn rebuilder_named(text: &str) -> Option<Rebuilder4>
    ensures { result ≡ rebuilder_named text.now }
{
    match text {
        "dirty" => Some(Rebuilder4::Dirty),
        "verifying" => Some(Rebuilder4::Verifying),
        "constructive" => Some(Rebuilder4::Constructive),
        "deep" => Some(Rebuilder4::Deep),
        _ => None,
    }
}

pub(crate) fn kind_named(text: &str) -> Option<Kind>
    ensures { result ≡ kind_named text.now }
{
    match text {
        "rules" => Some(Kind::Rules),
        "sheet" => Some(Kind::Sheet),
        _ => None,
    }
}

/// The kind of a book whose kind isn't said.
pub(crate) fn kind_by_ending(book: &str) -> Kind
    ensures { result ≡ kind_by_ending book.now }
{
    if book.as_bytes().ends_with(b".csv") {
        Kind::Sheet
    } else {
        Kind::Rules
    }
}
