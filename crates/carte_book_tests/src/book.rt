//! Books: adding, setting, looking up, and the digest of the rules.

ghost use Rattle.std.specs.Prelude.{IsTrue, IfOk};
ghost use Rattle.carte_name.specs.Kinds.{is_name_of};
ghost use Rattle.carte_book.specs.Book.{book_view};

use crate::rows::{Told, rows_hold};
use crate::texts::{hex, item_text};
use carte_book::Book;
use carte_formula::read;
use carte_value::{Kind, Name, Seeded, Value};
use std::alloc::Global;
use std::test::Fail;

// A row is the kind of a book, its rules and inputs, and what is asked of it: the digest of its rules, by Python's hashlib of the bytes written out by
// hand; what stands at a name; or a number to be set at a name, with the fault, or the number of names and what then stands there.
const BOOKS: &str =
    r#"rules||digest -> 6e340b9cffb37a989ca544e6bb780a2c78901d3fb33738768511a30617afa01d
sheet||digest -> 4bf5122f344554c53bde2ebb8cd2b7e3d1600ad631c385a5d7cce23c7785459a
rules|b:n+2*a;a:1|digest -> d5a07bfe546320393560fec58f8781332a1f96c9c3553c8de832c8f19c34a3dd
rules|a: (1);b:n + (2 * a)|digest -> d5a07bfe546320393560fec58f8781332a1f96c9c3553c8de832c8f19c34a3dd
sheet|aa1:- b1;a10:b2+1;A2:Sum(B3:A1)|digest -> 0282aaeb450735e83ee3079f64d96368649b7b8e02a86a1a8d3395476d97a1ac
rules|n=5;lib/x.o:IF(n, "yes")|digest -> 43460e8ce6353851f650f56f24f10391262d951443e344ee0850541927ceae17
rules|n=5;lib/x.o:IF(n, "yes")|n -> 5
rules|n=5;lib/x.o:IF(n, "yes")|lib/x.o -> IF(n,"yes",0)
rules|n=5;lib/x.o:IF(n, "yes")|m -> nothing
rules|n=5;lib/x.o:IF(n, "yes")|n=-7 -> 2 keys -7
rules|n=5;lib/x.o:IF(n, "yes")|lib/x.o=1 -> no input
rules|n=5;lib/x.o:IF(n, "yes")|m=1 -> no such name
sheet|a1=5;a2:a1*2|a2=1 -> no input
sheet|a1=5;a2:a1*2|b2=1 -> 3 keys 1
sheet|a1=5;a2:a1*2|zz9999 -> empty
sheet|a1=5;a2:a1*2|A2 -> A1*2"#;

// A name of this book.
fn name(alloc: Global, book: &Book, text: &str) -> Result<Name, Fail>
    ensures { IfOk result (λ k. IsTrue (is_name_of (book_view book.now).kind k)) }
{
    let name = Name::of(alloc, book.kind(), text)?;
    if !name.is_of(book.kind()) {
        return Err("of the other kind".into());
    }
    Ok(name)
}

fn number(alloc: Global, text: &str) -> Result<Value, Fail> {
    Ok(Value::read(alloc, text)?.ok_or("no value")?)
}

// Adds a rule, whose text stands behind the first colon, or else an input.
fn add(alloc: Global, book: &mut Book, item: &str) -> Result<(), Fail> {
    if let Some((at, text)) = item.split_once(':') {
        let expr = read(alloc, book.kind(), text)?;
        let name = name(alloc, book, at)?;
        book.add_rule(name, expr)?;
    } else if let Some((at, text)) = item.split_once('=') {
        let value = number(alloc, text)?;
        let name = name(alloc, book, at)?;
        book.add_input(name, value)?;
    }
    Ok(())
}

fn book_of(alloc: Global, kind: Kind, items: &str) -> Result<Book, Fail> {
    let mut book = Book::new(alloc, kind, Seeded::of(7));
    for item in items.split(';') {
        add(alloc, &mut book, item)?;
    }
    Ok(book)
}

fn set(alloc: Global, book: &mut Book, at: &str, text: &str) -> Result<String, Fail> {
    let value = number(alloc, text)?;
    let name = name(alloc, book, at)?;
    match book.set(&name, value) {
        Ok(()) => {
            let item = item_text(alloc, book, &name)?;
            Ok(format!(in alloc; "{} keys {item}", book.keys())?)
        }
        Err(fault) => Ok(format!(in alloc; "{fault}")?),
    }
}

fn asked_of(alloc: Global, book: &mut Book, asked: &str) -> Result<String, Fail> {
    if asked == "digest" {
        return Ok(hex(alloc, book.rules_digest(alloc)?.0.as_slice())?);
    }
    match asked.split_once('=') {
        Some((at, text)) => set(alloc, book, at, text),
        None => item_text(alloc, book, &name(alloc, book, asked)?),
    }
}

#[derive(Drop)]
struct Asking;

impl Told for Asking {
    fn told(&self, alloc: Global, asked: &str) -> Result<String, Fail> {
        let (kind, rest) = asked.split_once('|').ok_or("no kind")?;
        let (items, asked) = rest.split_once('|').ok_or("no items")?;
        let kind = if kind == "sheet" {
            Kind::Sheet
        } else {
            Kind::Rules
        };
        asked_of(alloc, &mut book_of(alloc, kind, items)?, asked)
    }
}

#[test]
fn books(rt: HostRuntime) -> Result<(), Fail> {
    assert_eq!(rt; rows_hold(rt.alloc(), &Asking, BOOKS)?, 16);
    Ok(())
}
