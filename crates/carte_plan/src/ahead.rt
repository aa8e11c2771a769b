// The digests of the tasks of keys that ran, in the order in which formulas stand in memory.
ghost use Rattle.std.specs.Prelude.{◌≡◌, ◌⊎◌, ℕ, Some, IfOk, drop, slice_get};
ghost use Rattle.carte_value.specs.declared.digest.Digest.{Digest as SomeDigest};
ghost use Rattle.carte_book.specs.Book.{book_view};
ghost use Rattle.carte_book.specs.Places.{task_at};
ghost use Rattle.carte_book.specs.Task.{task_now};
ghost use Rattle.carte_note.specs.Right.{key_of};
ghost use Rattle.carte_plan.specs.Ahead.{AreAhead, StandThere};

use crate::cutting::{FULL_PART, count_ran};
use carte_book::Book;
use carte_effect::Made;
use carte_mark::tasks_of;
use carte_note::Finished;
use carte_value::{Digest, NoMemory};
use std::alloc::Global;
use std::thread::Threads;

/// For fewer runs a pass over the places of all keys isn't worth it.
const MANY: usize = 2048;

/// Of each finished key the digest of its task, where it ran and many did. A build runs rules in another order than they stand
/// in memory; so each formula would be fetched anew as its key is noted. Where there are many, `rt` gives a thread for half of
/// them.
pub(crate) fn tasks_ahead<T: Threads>(
    rt: &T,
    alloc: Global,
    book: &Book,
    finished: &[Finished],
) -> Result<Vec<Option<Digest>>, NoMemory>
    ensures { IfOk result (λ tasks. AreAhead (book_view book.now) finished.now tasks.items) }
{
    let mut tasks = Vec::new(alloc);
    if count_ran(finished) < MANY {
        return Ok(tasks);
    }
    let whose = whose(alloc, book, finished)?;
    let places = taken(alloc, whose.as_slice())?;
    let digests = tasks_of(rt, alloc, places.as_slice(), book)?;
    tasks = vec![in alloc; None; finished.len()]?;
    for at in 0..places.len() {
        put(whose.as_slice(), places[at], digests[at], &mut tasks);
    }
    Ok(tasks)
}

// Of each place of the book which finished key stands there, where it ran.
fn whose(alloc: Global, book: &Book, finished: &[Finished]) -> Result<Vec<Option<usize>>, NoMemory>
    ensures { IfOk result (λ whose. StandThere book.now finished.now whose.items) }
{
    let mut whose = vec![in alloc; None; book.keys() as usize]?;
    for at in 0..finished.len() {
        stand(book, &finished[at], at, &mut whose);
    }
    Ok(whose)
}

fn stand(book: &Book, one: &Finished, at: usize, whose: &mut Vec<Option<usize>>)
    ensures { (p i : ℕ) → slice_get whose.new.items p ≡ Some (Some i) → slice_get whose.old.items p ≡ Some (Some i) ⊎ ((i ≡ at) × (task_at book.now p ≡ task_now (book_view book.now) (key_of one.now))) }
{
    let Made::Ran(_) = &one.made else {
        return;
    };
    if let Some(place) = book.place(one.made.key()) {
        if place < whose.len() {
            whose[place] = Some(at);
        }
    }
}

// The places where a key stands.
fn taken(alloc: Global, whose: &[Option<usize>]) -> Result<Vec<usize>, NoMemory> {
    let mut places = Vec::with_capacity(alloc, whose.len())?;
    for place in 0..whose.len() {
        if whose[place].is_some() {
            places.push(place)?;
        }
    }
    Ok(places)
}

fn put(whose: &[Option<usize>], place: usize, task: Option<Digest>, tasks: &mut Vec<Option<Digest>>)
    ensures { (i : ℕ) (d : SomeDigest) → slice_get tasks.new.items i ≡ Some (Some d) → slice_get tasks.old.items i ≡ Some (Some d) ⊎ ((slice_get whose.now place ≡ Some (Some i)) × (task ≡ Some d)) }
{
    if let Some(Some(at)) = whose.get(place) {
        if *at < tasks.len() {
            tasks[*at] = task;
        }
    }
}

/// What was worked out for the finished key at a place.
pub(crate) fn task_ahead(tasks: &[Option<Digest>], at: usize) -> Option<Digest>
    ensures { (d : SomeDigest) → result ≡ Some d → slice_get tasks.now at ≡ Some (Some d) }
{
    match tasks.get(at) {
        Some(task) => *task,
        None => None,
    }
}

/// What is left of it behind a full part of the keys.
pub(crate) fn behind_part(tasks: &[Option<Digest>]) -> &[Option<Digest>]
    ensures { result.now ≡ drop 256 tasks.now }
{
    let (_, behind) = tasks.split_at(FULL_PART.min(tasks.len()));
    behind
}
