//! The names that texts are, for INDIRECT and GATHER.

ghost use Rattle.std.specs.Prelude.{◌≡◌, [], ◌∷◌, true, None, IsTrue, IfOk, IfErr};
ghost use Rattle.std.specs.Result.{is_ok};
ghost use Rattle.carte_name.specs.Kinds.{is_text_of};
ghost use Rattle.carte_tree.specs.Coercions.{each_as, first_bad};
ghost use Rattle.carte_tree.specs.Found.{name_in, named, names_in};
ghost use Rattle.carte_tree.specs.Texts.{lines};

use crate::lines::first_line;
use crate::texts::text_of;
use carte_value::{Bad, Kind, Name, NameFault, Names, NoMemory, Value};
use std::alloc::Global;

/// The name of this kind that a text is read as, where it is.
fn named(alloc: Global, kind: Kind, text: &str) -> Result<Option<Name>, NoMemory>
    ensures named { IfOk result (λ found. found ≡ named kind text.now) }
    ensures memory { IfErr result (λ e. IsTrue (is_text_of kind text.now)) }
{
    match Name::of(alloc, kind, text) {
        Ok(name) => Ok(Some(name)),
        Err(NameFault::BadName(_)) => Ok(None),
        Err(NameFault::NoMemory) => Err(NoMemory),
    }
}

/// The name that INDIRECT looks up: the text of this kind that a value is, of a cell in either case.
/// Where the value is another, this is what INDIRECT gives: a bad value itself, and else `#REF!`.
/// Memory is wanted for a name alone.
pub fn name_in(alloc: Global, kind: Kind, value: &Value) -> Result<Result<Name, Value>, NoMemory>
    ensures name { IfOk result (λ found. found ≡ name_in kind value.now) }
    ensures memory { IfErr result (λ e. is_ok (name_in kind value.now) ≡ true) }
{
    match value {
        Value::Text(text) => match named(alloc, kind, text.text())? {
            Some(name) => Ok(Ok(name)),
            None => Ok(Err(Value::Bad(Bad::Ref))),
        },
        Value::Bad(bad) => Ok(Err(Value::Bad(*bad))),
        _ => Ok(Err(Value::Bad(Bad::Ref))),
    }
}

/// The names of this kind that the lines of a text are, where each of them is one.
fn names_of(alloc: Global, kind: Kind, text: &str) -> Result<Option<Names>, NoMemory>
    ensures { IfOk result (λ found. found ≡ each_as (named kind) (lines text.now)) }
{
    let mut names = Names::new(alloc);
    let mut rest = text;
    while let Some((line, behind)) = first_line(rest) {
        match named(alloc, kind, line) {
            Ok(Some(name)) => {
                if let Err(refused) = names.push(name) {
                    return Err(refused);
                }
            }
            Ok(None) => return Ok(None),
            Err(refused) => return Err(refused),
        }
        rest = behind;
    }
    Ok(Some(names))
}

/// The names that GATHER looks up: those that the lines of a value's text are.
/// Where a line is none, this is what GATHER gives: a bad value itself, and else `#REF!`.
/// A text without lines has no such line, and a number's one line never is a name. No memory is wanted for a bad value.
pub fn names_in(alloc: Global, kind: Kind, value: &Value) -> Result<Result<Names, Value>, NoMemory>
    ensures names { IfOk result (λ found. found ≡ names_in kind value.now) }
    ensures memory { IfErr result (λ e. first_bad (value.now ∷ []) ≡ None) }
{
    if let Value::Bad(bad) = value {
        return Ok(Err(Value::Bad(*bad)));
    }
    let text = text_of(alloc, value)?;
    match names_of(alloc, kind, text.as_str())? {
        Some(names) => Ok(Ok(names)),
        None => Ok(Err(Value::Bad(Bad::Ref))),
    }
}
