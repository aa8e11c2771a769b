ghost use Rattle.std.specs.Prelude.{◌≡◌, false, IfOk};
ghost use Rattle.clap.specs.Words.{app_of, rule_of, with_rule};
ghost use Rattle.carte_words.specs.Arguments.{carte, bare, with_places, with_options, place_rule, many_rule, option_rule, default_rule, flag_rule};
ghost use Rattle.carte_words.specs.Parsed.{IsParse, IsParseFault};

use crate::{Word, WordsFault};
use clap::error::ErrorKind;
use clap::{Arg, ArgAction, ArgMatches};
use std::alloc::{AllocError, Global};

/// The values of the arguments, where the words are those of the command.
pub(crate) fn parse<'a>(alloc: Global, words: &'a [Word]) -> Result<ArgMatches<'a>, WordsFault>
    ensures { IsParse words.entry.now result }
{
    match arguments(alloc) {
        Ok(arguments) => match arguments.try_get_matches_from(words) {
            Ok(matches) => Ok(matches),
            Err(error) => Err(fault(error.kind())),
        },
        Err(_) => Err(WordsFault::NoMemory),
    }
}

fn fault(kind: ErrorKind) -> WordsFault
    ensures { IsParseFault kind result }
{
    match kind {
        ErrorKind::OutOfMemory => WordsFault::NoMemory,
        _ => WordsFault::Words,
    }
}

fn arguments<'a>(alloc: Global) -> Result<clap::Command<'a>, AllocError>
    ensures { IfOk result (λ c. app_of c ≡ carte) }
{
    with_options(alloc, with_places(alloc, bare(alloc))?)
}

fn bare<'a>(alloc: Global) -> clap::Command<'a>
    ensures { app_of result ≡ bare }
{
    clap::Command::new(alloc, "carte")
        .no_binary_name(true)
        .disable_help_flag(true)
}

fn with_places<'a>(
    alloc: Global,
    command: clap::Command<'a>,
) -> Result<clap::Command<'a>, AllocError>
    ensures { IfOk result (λ c. app_of c ≡ with_places (app_of command.entry)) }
{
    let command = with(command, place(alloc, "command"))?;
    let command = with(command, place(alloc, "book"))?;
    let command = with(command, place(alloc, "state"))?;
    with(command, many(alloc, "target"))
}

fn with_options<'a>(
    alloc: Global,
    command: clap::Command<'a>,
) -> Result<clap::Command<'a>, AllocError>
    ensures { IfOk result (λ c. app_of c ≡ with_options (app_of command.entry)) }
{
    let command = with(command, choice(alloc, "scheduler", "suspending"))?;
    let command = with(command, choice(alloc, "rebuilder", "verifying"))?;
    let command = with(command, choice(alloc, "workers", "1"))?;
    let command = with(command, option(alloc, "kind"))?;
    with(command, flag(alloc, "list"))
}

fn with<'a>(command: clap::Command<'a>, arg: Arg<'a>) -> Result<clap::Command<'a>, AllocError>
    requires { arg.global ≡ false }
    ensures { IfOk result (λ c. app_of c ≡ with_rule (app_of command.entry) (rule_of arg.entry)) }
{
    command.arg(arg)
}

fn place<'a>(alloc: Global, id: &'a str) -> Arg<'a>
    ensures rule { rule_of result ≡ place_rule id.entry.now }
    ensures local { result.global ≡ false }
{
    Arg::new(alloc, id).required(true)
}

fn many<'a>(alloc: Global, id: &'a str) -> Arg<'a>
    ensures rule { rule_of result ≡ many_rule id.entry.now }
    ensures local { result.global ≡ false }
{
    Arg::new(alloc, id).num_args(0..)
}

fn option<'a>(alloc: Global, id: &'a str) -> Arg<'a>
    ensures rule { rule_of result ≡ option_rule id.entry.now }
    ensures local { result.global ≡ false }
{
    Arg::new(alloc, id).long(id).action(ArgAction::Set)
}

fn choice<'a>(alloc: Global, id: &'a str, default: &'a str) -> Arg<'a>
    ensures rule { rule_of result ≡ default_rule id.entry.now default.entry.now }
    ensures local { result.global ≡ false }
{
    Arg::new(alloc, id)
        .long(id)
        .action(ArgAction::Set)
        .default_value(default)
}

fn flag<'a>(alloc: Global, id: &'a str) -> Arg<'a>
    ensures rule { rule_of result ≡ flag_rule id.entry.now }
    ensures local { result.global ≡ false }
{
    Arg::new(alloc, id).long(id).action(ArgAction::SetTrue)
}
