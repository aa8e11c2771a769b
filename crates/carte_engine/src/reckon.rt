// From the end of a build to what it has made.
ghost use Rattle.std.specs.Prelude.{◌≡◌, ◌++◌, ◌∷◌, [], ℕ, List, Some, IfOk, OnOk, if◌then◌else◌};
ghost use Rattle.carte_value.specs.Truths.{Among, IsListOf, NoneTwice};
ghost use Rattle.carte_book.specs.Book.{book_view};
ghost use Rattle.carte_note.specs.Lists.{finished_of};
ghost use Rattle.carte_note.specs.Right.{has_run, key_of, keys_in, ran_in};
ghost use Rattle.carte_rebuild.specs.Ends.{HasTargets};
ghost use Rattle.carte_rebuild.specs.declared.work.WorkEnd.TheVariants.{All};
ghost use Rattle.carte_engine.specs.Answers.{AreValues};
ghost use Rattle.carte_engine.specs.Sorted.{sorted};
ghost use Rattle.carte_engine.specs.Reckoned.{IsReckoned, IsThere, value_found, value_made};

use crate::ran::in_order;
use crate::{Built, Ran};
use carte_book::{Book, Looked};
use carte_effect::Made;
use carte_note::{Finished, FinishedList};
use carte_rebuild::Work;
use carte_value::{Name, Names, NoMemory, Value, Values};
use std::alloc::Global;

/// What the work has made of the targets.
pub(crate) fn reckon(
    alloc: Global,
    book: &Book,
    targets: &Names,
    work: Work,
) -> Result<Built, NoMemory>
    requires { HasTargets (book_view book.now) targets.now (All work) }
    ensures { IfOk result (IsReckoned (book_view book.now) targets.now work) }
{
    let values = values(alloc, book, targets, &work.finished)?;
    let ran = ran(alloc, &work.finished)?;
    let finished = work.finished.len() as u64;
    let reused = finished.saturating_sub(ran.len() as u64);
    Ok(Built {
        values,
        ran,
        given_up: work.runs.given_up(),
        reused,
        finished: work.finished,
        runs: work.runs,
    })
}

fn values(
    alloc: Global,
    book: &Book,
    targets: &Names,
    finished: &FinishedList,
) -> Result<Values, NoMemory>
    requires { (t : List ℕ) → Among targets.now t → IsThere (book_view book.now) finished.now t }
    ensures { IfOk result (AreValues (value_found (book_view book.now) finished.now) targets.now) }
{
    let mut values = Values::new(alloc);
    for name in targets.as_slice() {
        values.push(value(alloc, book, finished, name)?)?;
    }
    Ok(values)
}

// The value of a target: an input has its own, and any other was finished. That what was finished is a rule of the book no
// scheduler tells over kept information that no build has left, so a name that the book hasn't is looked for as a rule is.
fn value(
    alloc: Global,
    book: &Book,
    finished: &FinishedList,
    name: &Name,
) -> Result<Value, NoMemory>
    requires { IsThere (book_view book.now) finished.now name.now }
    ensures { IfOk result (λ v. value_found (book_view book.now) finished.now name.now ≡ Some v) }
{
    match book.lookup(name) {
        Looked::Input(value) => value.copy(alloc),
        Looked::Rule(_) | Looked::None => made(alloc, finished, name),
    }
}

fn made(alloc: Global, finished: &FinishedList, name: &Name) -> Result<Value, NoMemory>
    requires { Among (keys_in finished.now) name.now }
    ensures { IfOk result (λ v. value_made (finished_of finished.now name.now) ≡ Some v) }
{
    match finished.find(name) {
        Some(one) => one.made.value().copy(alloc),
        None => unreachable!(),
    }
}

// The keys of those that ran.
fn ran(alloc: Global, finished: &FinishedList) -> Result<Ran, NoMemory>
    ensures { IfOk result (IsListOf (Among (ran_in finished.now))) }
{
    let keys = keys_that_ran(alloc, finished.as_slice())?;
    Ok(Ran::of(each_once(finished, keys)))
}

// Over what is sound no scheduler finishes a key twice. Over anything else that isn't known, so the list is looked at.
fn each_once(finished: &FinishedList, keys: Vec<Name>) -> Vec<Name>
    requires { keys.items ≡ ran_in finished.now }
    ensures once { NoneTwice result.items }
    ensures same { IsListOf (Among keys.items) (sorted result.items) }
{
    if finished.has_each_once() {
        return keys;
    }
    in_order(keys)
}

fn keys_that_ran(alloc: Global, finished: &[Finished]) -> Result<Vec<Name>, NoMemory>
    ensures { IfOk result (λ keys. keys.items ≡ ran_in finished.now) }
{
    let mut keys = Vec::with_capacity(alloc, finished.len())?;
    for one in finished {
        push_ran(alloc, one, &mut keys)?;
    }
    Ok(keys)
}

fn push_ran(alloc: Global, one: &Finished, keys: &mut Vec<Name>) -> Result<(), NoMemory>
    ensures { OnOk result (keys.new.items ≡ keys.old.items ++ (if has_run one.now.made then key_of one.now ∷ [] else [])) }
{
    match &one.made {
        Made::Ran(end) => push(alloc, end.key(), keys),
        Made::Reused(_) => Ok(()),
    }
}

fn push(alloc: Global, key: &Name, keys: &mut Vec<Name>) -> Result<(), NoMemory>
    ensures { OnOk result (keys.new.items ≡ keys.old.items ++ key.now ∷ []) }
{
    keys.push(key.copy(alloc)?)?;
    Ok(())
}
