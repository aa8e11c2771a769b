ghost use Rattle.std.specs.Prelude.{◌≡◌, [], codes, unwrap_or, length, ◌==◌};
ghost use Rattle.clap.specs.Words.{all_of, found_of, rows_of};
ghost use Rattle.clap.specs.Walk.{texts};
ghost use Rattle.carte_words.specs.Words.{aimed, aims_of, no_targets, seed_and_count, some_targets, names_in, name_in, Gives, IsCause};
ghost use Rattle.carte_words.specs.declared.fault.WordsFault.TheVariants.{BadTarget};

use crate::choices::Choices;
use crate::numbers::{count_in, seed_in};
use crate::{Command, Word, WordsFault};
use carte_value::{Kind, Name, NameFault, Names};
use clap::ArgMatches;
use std::alloc::Global;

/// What the words behind the files are: targets, or the seed and the count of a generated book.
#[derive(Debug, Drop)]
pub(crate) struct Aims {
    pub(crate) targets: Names,
    pub(crate) seed: u64,
    pub(crate) count: u64,
}

/// What stands behind the files, as the command takes it.
pub(crate) fn read_aims(
    alloc: Global,
    matches: &ArgMatches,
    choices: Choices,
) -> Result<Aims, WordsFault>
    ensures { Gives (aims_of choices (unwrap_or (all_of (codes "target") (rows_of (found_of matches.now))) [])) result }
{
    match matches.get_strs("target") {
        Some(words) => aims_in(alloc, choices, words),
        None => aims_in(alloc, choices, &[]),
    }
}

fn aims_in(alloc: Global, choices: Choices, words: &[&str]) -> Result<Aims, WordsFault>
    ensures { Gives (aims_of choices (texts words.now)) result }
{
    match choices.command {
        Command::Build | Command::Explain => some_targets(alloc, choices.kind, words),
        Command::Session | Command::Clean => no_targets(alloc, words),
        Command::Generate => seed_and_count(alloc, words),
    }
}

fn some_targets(alloc: Global, kind: Kind, words: &[&str]) -> Result<Aims, WordsFault>
    ensures { Gives (some_targets kind (texts words.now)) result }
{
    if words.is_empty() {
        return Err(WordsFault::NoTarget);
    }
    Ok(aimed(read_names(alloc, kind, words)?))
}

fn no_targets(alloc: Global, words: &[&str]) -> Result<Aims, WordsFault>
    ensures { Gives (no_targets (texts words.now)) result }
{
    if words.is_empty() {
        Ok(aimed(Names::new(alloc)))
    } else {
        Err(WordsFault::TargetsNotTaken)
    }
}

fn aimed(targets: Names) -> Aims
    ensures { result ≡ aimed targets }
{
    Aims {
        targets,
        seed: 0,
        count: 0,
    }
}

fn seed_and_count(alloc: Global, words: &[&str]) -> Result<Aims, WordsFault>
    ensures { Gives (seed_and_count (texts words.now)) result }
{
    let [seed, count] = words else {
        return Err(WordsFault::SeedAndCount);
    };
    match (seed_in(seed), count_in(count)) {
        (Some(seed), Some(count)) => Ok(Aims {
            targets: Names::new(alloc),
            seed,
            count,
        }),
        _ => Err(WordsFault::SeedAndCount),
    }
}

fn read_names(alloc: Global, kind: Kind, words: &[&str]) -> Result<Names, WordsFault>
    ensures { Gives (names_in kind (texts words.now)) result }
{
    let mut names = Names::new(alloc);
    for word in words {
        let name = read_name(alloc, kind, word)?;
        if let Err(_) = names.push(name) {
            return Err(WordsFault::NoMemory);
        }
    }
    Ok(names)
}

fn read_name(alloc: Global, kind: Kind, word: &str) -> Result<Name, WordsFault>
    ensures { Gives (name_in kind word.now) result }
{
    match Name::of(alloc, kind, word) {
        Ok(name) => Ok(name),
        Err(NameFault::BadName(_)) => Err(bad_target(alloc, word)),
        Err(NameFault::NoMemory) => Err(WordsFault::NoMemory),
    }
}

fn bad_target(alloc: Global, word: &str) -> WordsFault
    ensures { IsCause result → result ≡ BadTarget word.now }
{
    match Word::of(alloc, word) {
        Ok(word) => WordsFault::BadTarget(word),
        Err(_) => WordsFault::NoMemory,
    }
}
