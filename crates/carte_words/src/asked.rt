ghost use Rattle.std.specs.Prelude.{◌≡◌, IfOk};
ghost use Rattle.clap.specs.Words.{first_of, found_of, rows_of};
ghost use Rattle.carte_words.specs.Named.{AllNamed};
ghost use Rattle.carte_words.specs.Words.{words_of, meaning_of, chosen_of, or_words, staffed, takes, Gives, IsCounted};

use crate::choices::{choose, value_at};
use crate::parse::parse;
use crate::targets::{Aims, read_aims};
use crate::{Scheduler4, Word, Words, WordsFault};
use clap::ArgMatches;
use std::alloc::Global;

/// What the words of the command line ask for, without the program's name:
/// `COMMAND BOOK STATE [options] [TARGET..]`, where options may stand between and behind the targets, too.
///
/// The commands are `build` and `explain`, which take targets, `session` and `clean`, which take none, and `generate`, which
/// takes a seed and a count in their place: two numbers in digits, the seed of 64 bits, the count from 2 to 262,144. The
/// options, each at most once, are
/// `--scheduler topological`, `restarting` or `suspending` (the default), `--rebuilder dirty`, `verifying` (the default),
/// `constructive` or `deep`, `--workers` with a number from 1 (the default) to 64, `--kind rules` or `sheet`, and `--list`.
/// Without `--kind` a book is a sheet where its word ends with `.csv`, and else a rule file; a generated one is a rule
/// file. Behind `--` every word is a target.
///
/// The fault is the first of these: `Words`; `NoTarget`; `TargetsNotTaken`; `SeedAndCount`; `BadTarget`;
/// `WorkersNeedSuspending`.
pub fn read_words(alloc: Global, words: &[Word]) -> Result<Words, WordsFault>
    ensures words { Gives (words_of words.now) result }
    ensures names { IfOk result (λ w. AllNamed w.kind w.targets) }
    ensures count { IfOk result (λ w. IsCounted w) }
{
    let matches = parse(alloc, words)?;
    read_matches(alloc, &matches)
}

fn read_matches(alloc: Global, matches: &ArgMatches) -> Result<Words, WordsFault>
    ensures { Gives (meaning_of (rows_of (found_of matches.now))) result }
{
    let book = word_at(alloc, matches, "book")?;
    let state = word_at(alloc, matches, "state")?;
    read_chosen(alloc, matches, book, state)
}

fn read_chosen(
    alloc: Global,
    matches: &ArgMatches,
    book: Word,
    state: Word,
) -> Result<Words, WordsFault>
    ensures { Gives (chosen_of (rows_of (found_of matches.now)) book state) result }
{
    let Some(choices) = choose(matches, book.text()) else {
        return Err(WordsFault::Words);
    };
    let Aims {
        targets,
        seed,
        count,
    } = read_aims(alloc, matches, choices)?;
    staffed(Words {
        command: choices.command,
        book,
        state,
        kind: choices.kind,
        scheduler: choices.scheduler,
        rebuilder: choices.rebuilder,
        workers: choices.workers,
        list: choices.list,
        targets,
        seed,
        count,
    })
}

fn staffed(words: Words) -> Result<Words, WordsFault>
    ensures { Gives (staffed words) result }
{
    if takes(words.scheduler, words.workers) {
        Ok(words)
    } else {
        Err(WordsFault::WorkersNeedSuspending)
    }
}

// Several workers are for the suspending scheduler alone.
fn takes(scheduler: Scheduler4, workers: usize) -> bool
    ensures { result ≡ takes scheduler workers }
{
    match scheduler {
        Scheduler4::Suspending => true,
        Scheduler4::Topological | Scheduler4::Restarting => workers <= 1,
    }
}

fn word_at(alloc: Global, matches: &ArgMatches, id: &str) -> Result<Word, WordsFault>
    ensures { Gives (or_words (first_of id.now (rows_of (found_of matches.now)))) result }
{
    match value_at(matches, id) {
        Some(text) => Ok(Word::of(alloc, text)?),
        None => Err(WordsFault::Words),
    }
}
