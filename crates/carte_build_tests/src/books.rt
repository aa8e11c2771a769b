//! Rule files whose rules are written one behind the other, and lists of names as text.

ghost use Rattle.std.specs.Prelude.{IsTrue, IfOk};
ghost use Rattle.carte_name.specs.Kinds.{is_name_of};
ghost use Rattle.carte_book.specs.Book.{book_view};

use carte_book::{Book, Reason};
use carte_formula::read;
use carte_value::{Kind, Name, Names, Seeded, Value};
use std::alloc::Global;
use std::test::Fail;

/// A name of this book.
pub(crate) fn name(alloc: Global, book: &Book, text: &str) -> Result<Name, Fail>
    ensures { IfOk result (λ k. IsTrue (is_name_of (book_view book.now).kind k)) }
{
    let name = Name::of(alloc, book.kind(), text)?;
    if !name.is_of(book.kind()) {
        return Err("of the other kind".into());
    }
    Ok(name)
}

fn add_rule(alloc: Global, book: &mut Book, at: &str, text: &str) -> Result<(), Fail> {
    let name = name(alloc, book, at)?;
    let expr = read(alloc, book.kind(), text)?;
    book.add_rule(name, expr)?;
    Ok(())
}

fn add_input(alloc: Global, book: &mut Book, at: &str, value: i64) -> Result<(), Fail> {
    let name = name(alloc, book, at)?;
    book.add_input(name, Value::Number(value))?;
    Ok(())
}

/// A rule file whose inputs, parted by blanks, have this value each, with rules written as `name: formula`. It is boxed, so that
/// one call drops it.
pub(crate) fn book_of(
    alloc: Global,
    inputs: &str,
    value: i64,
    rules: &str,
) -> Result<Box<Book>, Fail> {
    let mut book = Box::new(alloc, Book::new(alloc, Kind::Rules, Seeded::of(7)))?;
    for at in inputs.split_whitespace() {
        add_input(alloc, &mut book, at, value)?;
    }
    for rule in rules.split("; ") {
        let (at, text) = rule.split_once(": ").ok_or("no rule")?;
        add_rule(alloc, &mut book, at, text)?;
    }
    Ok(book)
}

pub(crate) fn names_of(alloc: Global, texts: &str) -> Result<Names, Fail> {
    let mut names = Names::new(alloc);
    for text in texts.split_whitespace() {
        names.push(Name::rule(alloc, text)?)?;
    }
    Ok(names)
}

/// A word, and behind it each name.
pub(crate) fn listed(alloc: Global, word: &str, names: &Names) -> Result<String, Fail> {
    let mut text = String::from_str(alloc, word)?;
    for name in names.as_slice() {
        text.push_str(" ")?;
        text.push_str(name.text())?;
    }
    Ok(text)
}

/// Why a build is refused, and the path.
pub(crate) fn told(alloc: Global, reason: &Reason) -> Result<String, Fail> {
    match reason {
        Reason::Cycle(path) => listed(alloc, "cycle", path),
        Reason::Missing(path) => listed(alloc, "missing", path),
        Reason::Dynamic(path) => listed(alloc, "dynamic", path),
    }
}
