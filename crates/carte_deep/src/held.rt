ghost use Rattle.std.specs.Prelude.{◌≡◌, ◌++◌, Some, option_copied, option_map, IfOk};
ghost use Rattle.carte_book.specs.Book.{book_view};
ghost use Rattle.carte_record.specs.Kept.{kept_view};
ghost use Rattle.carte_table.specs.Lookups.{first_value};
ghost use Rattle.carte_sound.specs.Begun.{is_digest};
ghost use Rattle.carte_sound.specs.Marks.{present};
ghost use Rattle.carte_sound.specs.Held.{are_so};
ghost use Rattle.carte_deep.specs.Holding.{Finds, holds, given_by as given, outcome_at};

use carte_book::{Book, Looked};
use carte_effect::{Hashed, Reuse};
use carte_rebuild::{are_tasks, stored};
use carte_record::{DeepTrace, Kept, Store};
use carte_value::{Link, Links, Name, NoMemory, SharedLinks};
use std::alloc::Global;
use std::marker::Model;

/// An earlier end of a task: its key, its value, and the rules and the inputs beneath it with their digests.
#[derive(Debug, Drop)]
pub(crate) struct Earlier {
    pub(crate) key: Name,
    value: Hashed,
    links: SharedLinks,
}

impl Model for Earlier {
    ghost use Rattle.carte_effect.specs.Outcomes.{Outcome};

    ghost Value = { Outcome };

    ghost view = { λ e. record { key = e.key; value = e.value; links = e.links } };
}

impl Earlier {
    /// It is given again.
    pub(crate) fn reuse(&self, alloc: Global) -> Result<Reuse, NoMemory>
        ensures { IfOk result (λ reuse. reuse ≡ self.now) }
    {
        let key = self.key.copy(alloc)?;
        let value = self.value.copy(alloc)?;
        let links = self.links.copy()?;
        Reuse::new(alloc, key, value, links)
    }
}

/// The end that a trace of a key tells of whose rules have their tasks in the book, whose inputs have their values there, and
/// whose own value is there.
pub(crate) fn held(
    alloc: Global,
    kept: &Kept,
    book: &Book,
    key: &Name,
) -> Result<Option<Earlier>, NoMemory>
    ensures { IfOk result (Finds (kept_view kept.now) (book_view book.now) key.now) }
{
    let places = kept.deep.places(key);
    for newer in 0..places.len() {
        let at = places[places.len() - 1 - newer];
        let trace = kept.deep.get(at as usize);
        if let Some(earlier) = given_by(alloc, &kept.values, book, key, trace)? {
            return Ok(Some(earlier));
        }
    }
    Ok(None)
}

fn given_by(
    alloc: Global,
    values: &Store,
    book: &Book,
    key: &Name,
    trace: Option<&DeepTrace>,
) -> Result<Option<Earlier>, NoMemory>
    ensures { IfOk result (λ earlier. earlier ≡ given (first_value values.now) (book_view book.now) key.now (option_copied trace.entry)) }
{
    match trace {
        Some(trace) => given_of(alloc, values, book, key, trace),
        None => Ok(None),
    }
}

// The end that a trace tells of, where it holds and its value is there.
fn given_of(
    alloc: Global,
    values: &Store,
    book: &Book,
    key: &Name,
    trace: &DeepTrace,
) -> Result<Option<Earlier>, NoMemory>
    ensures { IfOk result (λ earlier. earlier ≡ given (first_value values.now) (book_view book.now) key.now (Some trace.now)) }
{
    if holds(alloc, book, trace)? {
        return told_by(alloc, values, key, trace);
    }
    Ok(None)
}

// The inputs are compared first: they are fewer than the rules, and change more often.
fn holds(alloc: Global, book: &Book, trace: &DeepTrace) -> Result<bool, NoMemory>
    ensures { IfOk result (λ is. is ≡ holds (book_view book.now) trace.now) }
{
    if are_present(book, &trace.links) {
        return are_tasks(alloc, book, &trace.tasks);
    }
    Ok(false)
}

fn told_by(
    alloc: Global,
    values: &Store,
    key: &Name,
    trace: &DeepTrace,
) -> Result<Option<Earlier>, NoMemory>
    ensures { IfOk result (λ earlier. earlier ≡ option_map (outcome_at key.now trace.now) (first_value values.now trace.now.result)) }
{
    match stored(alloc, values, &trace.result)? {
        Some(value) => Ok(Some(Earlier {
            key: key.copy(alloc)?,
            value,
            links: compared(alloc, trace)?,
        })),
        None => Ok(None),
    }
}

// All that was compared, rules before inputs.
fn compared(alloc: Global, trace: &DeepTrace) -> Result<SharedLinks, NoMemory>
    ensures { IfOk result (λ links. links ≡ trace.now.tasks ++ trace.now.links) }
{
    let mut links = trace.tasks.copy(alloc)?;
    links.append(trace.links.copy(alloc)?)?;
    SharedLinks::of(alloc, links)
}

// Whether each link is to an input of the book, with the digest that it has.
fn are_present(book: &Book, links: &Links) -> bool
    ensures { result ≡ are_so (present (book_view book.now)) links.now }
{
    for link in links.as_slice() {
        if !is_present(book, link) {
            return false;
        }
    }
    true
}

fn is_present(book: &Book, link: &Link) -> bool
    ensures { result ≡ is_digest (present (book_view book.now) link.now.name) link.now.digest }
{
    match book.lookup(&link.name) {
        Looked::Input(value) => value.digest() == link.digest,
        Looked::Rule(_) => false,
        Looked::None => false,
    }
}
