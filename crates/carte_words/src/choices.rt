ghost use Rattle.std.specs.Prelude.{◌≡◌, codes, option_and_then, option_map, option_copied};
ghost use Rattle.clap.specs.Words.{first_of, found_of, rows_of};
ghost use Rattle.carte_words.specs.Words.{choices_of, is_set, kind_for, kind_of};
ghost use Rattle.carte_words.specs.Tables.{command_named, scheduler_named, rebuilder_named};
ghost use Rattle.carte_words.specs.Numbers.{workers_in};

use crate::numbers::workers_in;
use crate::{Command, Rebuilder4, Scheduler4, tables};
use carte_value::Kind;
use clap::ArgMatches;

/// What is chosen besides the files and the targets.
#[derive(Clone, Copy, Debug)]
pub(crate) struct Choices {
    pub(crate) command: Command,
    pub(crate) kind: Kind,
    pub(crate) scheduler: Scheduler4,
    pub(crate) rebuilder: Rebuilder4,
    pub(crate) workers: usize,
    pub(crate) list: bool,
}

/// What the values of the arguments choose, or `None` where one is in no table.
pub(crate) fn choose(matches: &ArgMatches, book: &str) -> Option<Choices>
    ensures { result ≡ choices_of (rows_of (found_of matches.now)) book.now }
{
    let command = command_at(matches)?;
    let kind = kind_of(value_at(matches, "kind"), book)?;
    let scheduler = scheduler_at(matches)?;
    let rebuilder = rebuilder_at(matches)?;
    let workers = workers_at(matches)?;
    Some(Choices {
        command,
        kind: kind_for(command, kind),
        scheduler,
        rebuilder,
        workers,
        list: is_set(value_at(matches, "list")),
    })
}

/// The first value of an argument.
#[tactic(auto, using(crate::proofs::Rows::value_at))]
pub(crate) fn value_at<'a>(matches: &ArgMatches<'a>, id: &str) -> Option<&'a str>
    ensures { option_map (λ s. s.now) result ≡ first_of id.now (rows_of (found_of matches.now)) }
{
    matches.get_str(id)
}

fn command_at(matches: &ArgMatches) -> Option<Command>
    ensures { result ≡ option_and_then command_named (first_of (codes "command") (rows_of (found_of matches.now))) }
{
    tables::command_named(value_at(matches, "command")?)
}

fn scheduler_at(matches: &ArgMatches) -> Option<Scheduler4>
    ensures { result ≡ option_and_then scheduler_named (first_of (codes "scheduler") (rows_of (found_of matches.now))) }
{
    tables::scheduler_named(value_at(matches, "scheduler")?)
}

fn rebuilder_at(matches: &ArgMatches) -> Option<Rebuilder4>
    ensures { result ≡ option_and_then rebuilder_named (first_of (codes "rebuilder") (rows_of (found_of matches.now))) }
{
    tables::rebuilder_named(value_at(matches, "rebuilder")?)
}

fn workers_at(matches: &ArgMatches) -> Option<usize>
    ensures { result ≡ option_and_then workers_in (first_of (codes "workers") (rows_of (found_of matches.now))) }
{
    workers_in(value_at(matches, "workers")?)
}

fn kind_of(said: Option<&str>, book: &str) -> Option<Kind>
    ensures { result ≡ kind_of (option_copied said.entry) book.now }
{
    match said {
        Some(text) => tables::kind_named(text),
        None => Some(tables::kind_by_ending(book)),
    }
}

// A generated book is a rule file, whatever is said of its kind.
fn kind_for(command: Command, kind: Kind) -> Kind
    ensures { result ≡ kind_for command kind }
{
    match command {
        Command::Generate => Kind::Rules,
        Command::Build | Command::Session | Command::Explain | Command::Clean => kind,
    }
}

fn is_set(said: Option<&str>) -> bool
    ensures { result ≡ is_set (option_copied said.entry) }
{
    match said {
        Some(text) => text == "true",
        None => false,
    }
}
