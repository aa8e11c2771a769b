ghost use Rattle.std.specs.Prelude.{◌≡◌, IfOk, IfSome, ◌==◌, Ok, Some, None, codes, slice_index, if◌then◌else◌};
ghost use Rattle.carte_name.specs.declared.kind.Kind.{Kind};
ghost use Rattle.carte_words.specs.declared.line.Line.TheVariants.{Nothing};
ghost use Rattle.carte_words.specs.Cuts.{skip, words_in};
ghost use Rattle.carte_words.specs.Named.{LineNamed};
ghost use Rattle.carte_words.specs.Lines.{Means, Says, Follows, IsMeant, IsNameAt, AreNamesAt, AreKeys, names_of};

use crate::Line;
use crate::cuts::{next_word, skip, trim_end, without_return};
use carte_value::{Kind, Name, NameFault, Names, NoMemory, Value};
use std::alloc::Global;
use std::str;

/// What a line of a script asks for, without its line feed, or `None` where it asks for nothing that there is.
///
/// A carriage return at its end is dropped. Words stand between spaces and tabs. A line without words, or whose first
/// word begins with `#`, asks for nothing. The others are `set NAME VALUE`, `build NAME NAME..`, `explain NAME NAME..`
/// and `clean`. A name is one of the kind; a value is all that follows it, as `Value::read` reads it. A line that
/// isn't UTF-8 is none of them.
pub fn read_line(alloc: Global, kind: Kind, line: &[u8]) -> Result<Option<Line>, NoMemory>
    ensures line { IsMeant (Means kind line.now) result }
    ensures names { IfOk result (λ o. IfSome o (λ l. LineNamed kind l)) }
{
    let Ok(text) = str::from_utf8(line) else {
        return Ok(None);
    };
    read_text(alloc, kind, trim_end(without_return(text)))
}

fn read_text(alloc: Global, kind: Kind, text: &str) -> Result<Option<Line>, NoMemory>
    ensures { IsMeant (Says kind (skip text.now)) result }
{
    match next_word(text) {
        Some((word, rest)) => read_command(alloc, kind, word, rest),
        None => Ok(Some(Line::Nothing)),
    }
}

fn read_command(alloc: Global, kind: Kind, word: &str, rest: &str) -> Result<Option<Line>, NoMemory>
    ensures { IsMeant (Follows kind word.now rest.now) result }
{
    match word {
        "set" => read_set(alloc, kind, rest),
        "build" => read_build(alloc, kind, rest),
        "explain" => read_explain(alloc, kind, rest),
        "clean" => Ok(read_clean(rest)),
        _ => Ok(read_comment(word)),
    }
}

fn read_build(alloc: Global, kind: Kind, rest: &str) -> Result<Option<Line>, NoMemory>
    ensures { IsMeant (Follows kind (codes "build") rest.now) result }
{
    match read_keys(alloc, kind, rest)? {
        Some(names) => Ok(Some(Line::Build(names))),
        None => Ok(None),
    }
}

fn read_explain(alloc: Global, kind: Kind, rest: &str) -> Result<Option<Line>, NoMemory>
    ensures { IsMeant (Follows kind (codes "explain") rest.now) result }
{
    match read_keys(alloc, kind, rest)? {
        Some(names) => Ok(Some(Line::Explain(names))),
        None => Ok(None),
    }
}

fn read_clean(rest: &str) -> Option<Line>
    ensures { (kind : Kind) → IsMeant (Follows kind (codes "clean") rest.now) (Ok result) }
{
    match next_word(rest) {
        Some(_) => None,
        None => Some(Line::Clean),
    }
}

fn read_comment(word: &str) -> Option<Line>
    ensures { result ≡ (if slice_index word.now 0 == 35 then Some Nothing else None) }
{
    match word.as_bytes().first() {
        Some(b'#') => Some(Line::Nothing),
        _ => None,
    }
}

fn read_set(alloc: Global, kind: Kind, rest: &str) -> Result<Option<Line>, NoMemory>
    ensures { IsMeant (Follows kind (codes "set") rest.now) result }
{
    let Some((word, rest)) = next_word(rest) else {
        return Ok(None);
    };
    let Some(name) = read_name(alloc, kind, word)? else {
        return Ok(None);
    };
    match Value::read(alloc, skip(rest))? {
        Some(value) => Ok(Some(Line::Set(name, value))),
        None => Ok(None),
    }
}

// One or more names.
fn read_keys(alloc: Global, kind: Kind, text: &str) -> Result<Option<Names>, NoMemory>
    ensures { AreKeys kind text.now result }
{
    let Some(names) = read_names(alloc, kind, text)? else {
        return Ok(None);
    };
    if names.is_empty() {
        return Ok(None);
    }
    Ok(Some(names))
}

fn read_names(alloc: Global, kind: Kind, text: &str) -> Result<Option<Names>, NoMemory>
    ensures { AreNamesAt (names_of kind (words_in text.now)) result }
{
    let mut names = Names::new(alloc);
    let mut left = text;
    while let Some((word, rest)) = next_word(left) {
        match read_name(alloc, kind, word) {
            Ok(Some(name)) => names.push(name)?,
            Ok(None) => return Ok(None),
            Err(refused) => return Err(refused),
        }
        left = rest;
    }
    Ok(Some(names))
}

fn read_name(alloc: Global, kind: Kind, word: &str) -> Result<Option<Name>, NoMemory>
    ensures { IsNameAt kind word.now result }
{
    match Name::of(alloc, kind, word) {
        Ok(name) => Ok(Some(name)),
        Err(NameFault::BadName(_)) => Ok(None),
        Err(NameFault::NoMemory) => Err(NoMemory),
    }
}
