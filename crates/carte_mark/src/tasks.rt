ghost use Rattle.std.specs.Prelude.{◌≡◌, ℕ, ◌++◌, ◌∷◌, [], IfOk, OnOk};
ghost use Rattle.carte_book.specs.Book.{book_view};
ghost use Rattle.carte_book.specs.Places.{task_at};
ghost use Rattle.carte_record.specs.Kept.{kept_view};
ghost use Rattle.carte_record.specs.Lookups.{first_entry};
ghost use Rattle.carte_sound.specs.Begun.{is_digest};
ghost use Rattle.carte_mark.specs.Reached.{is_other, tasks_at, AddsOther, PutsOthers};

use crate::set::put;
use carte_book::Book;
use carte_record::{Entries, Entry, Kept};
use carte_value::{Digest, Name, NoMemory, Numbering};
use std::alloc::Global;
use std::thread::{Threads, join};

/// From so many tasks on a thread of its own works out half of their digests. It has to be made, and to fetch the formulas anew:
/// with half as many tasks it takes a little longer than one thread.
const WORTH: usize = 2048;

/// Has the book know the digests of the tasks of the keys that have entries: the marking looks at each of them, and a build at
/// each key that it reaches. It is no work where the book knows as many.
pub fn know_tasks<T: Threads>(
    rt: &T,
    alloc: Global,
    entries: &Entries,
    book: &mut Book,
) -> Result<(), NoMemory>
    ensures { book_view book.new ≡ book_view book.old }
{
    if book.known_tasks() >= entries.len() {
        return Ok(());
    }
    let places = places_of(alloc, entries.as_slice(), book)?;
    let tasks = tasks_of(rt, alloc, places.as_slice(), book)?;
    learn_each(places.as_slice(), tasks.as_slice(), book);
    Ok(())
}

// The places in the book of the entries' keys, in the book's order: so their formulas are fetched as they stand in memory, and
// not in the order in which a build met them.
fn places_of(alloc: Global, entries: &[Entry], book: &Book) -> Result<Vec<usize>, NoMemory> {
    let mut wanted = vec![in alloc; false; book.keys() as usize]?;
    for entry in entries {
        want(book, &entry.key, &mut wanted);
    }
    let mut places = Vec::with_capacity(alloc, entries.len())?;
    for at in 0..wanted.len() {
        if wanted[at] {
            places.push(at)?;
        }
    }
    Ok(places)
}

fn want(book: &Book, key: &Name, wanted: &mut [bool]) {
    if let Some(at) = book.place(key) {
        if let Some(is_wanted) = wanted.get_mut(at) {
            *is_wanted = true;
        }
    }
}

/// The digests of the tasks of what stands at these places of a book. Where there are many, `rt` gives a thread for half of
/// them.
pub fn tasks_of<T: Threads>(
    rt: &T,
    alloc: Global,
    places: &[usize],
    book: &Book,
) -> Result<Vec<Option<Digest>>, NoMemory>
    ensures { IfOk result (λ tasks. tasks.items ≡ tasks_at book.now places.now) }
{
    if places.len() < WORTH {
        return tasks_in_turn(alloc, places, book);
    }
    let (front, back) = places.split_at(places.len() / 2);
    let (fronts, backs) = join(
        rt,
        || tasks_in_turn(alloc, front, book),
        || tasks_in_turn(alloc, back, book),
    );
    behind(fronts?, backs?)
}

fn behind(
    fronts: Vec<Option<Digest>>,
    mut backs: Vec<Option<Digest>>,
) -> Result<Vec<Option<Digest>>, NoMemory>
    ensures { IfOk result (λ tasks. tasks.items ≡ fronts.items ++ backs.items) }
{
    let mut tasks = fronts;
    tasks.append(&mut backs)?;
    Ok(tasks)
}

fn tasks_in_turn(
    alloc: Global,
    places: &[usize],
    book: &Book,
) -> Result<Vec<Option<Digest>>, NoMemory>
    ensures { IfOk result (λ tasks. tasks.items ≡ tasks_at book.now places.now) }
{
    let mut room = Vec::new(alloc);
    let mut tasks = Vec::with_capacity(alloc, places.len())?;
    for at in places {
        push_task(alloc, &mut room, *at, book, &mut tasks)?;
    }
    Ok(tasks)
}

fn push_task(
    alloc: Global,
    room: &mut Vec<u8>,
    at: usize,
    book: &Book,
    tasks: &mut Vec<Option<Digest>>,
) -> Result<(), NoMemory>
    ensures { OnOk result (tasks.new.items ≡ tasks.old.items ++ task_at book.now at ∷ []) }
{
    tasks.push(book.task_digest_at(alloc, room, at)?)?;
    Ok(())
}

fn learn_each(places: &[usize], tasks: &[Option<Digest>], book: &mut Book)
    requires { tasks.now ≡ tasks_at book.old places.now }
    ensures book { book_view book.new ≡ book_view book.old }
    ensures tasks { (at : ℕ) → task_at book.new at ≡ task_at book.old at }
{
    for at in 0..places.len() {
        book.learn_task_at(places[at], tasks[at]);
    }
}

/// Puts the keys whose entries have a task that they haven't now.
pub(crate) fn put_changed_rules(
    alloc: Global,
    kept: &Kept,
    book: &Book,
    names: &mut Numbering,
) -> Result<(), NoMemory>
    ensures { OnOk result (PutsOthers (kept_view kept.now) (book_view book.now) names.old names.new) }
{
    for entry in kept.entries.as_slice() {
        add_changed_rule(alloc, kept, book, entry, names)?;
    }
    Ok(())
}

// Of a key that has several entries the first counts. It is looked up only where the entry's own task isn't the present one.
fn add_changed_rule(
    alloc: Global,
    kept: &Kept,
    book: &Book,
    entry: &Entry,
    names: &mut Numbering,
) -> Result<(), NoMemory>
    ensures { OnOk result (AddsOther (kept_view kept.now) (book_view book.now) entry.now names.old names.new) }
{
    let task = book.task_digest(alloc, &entry.key)?;
    if is_task(&task, &entry.task) || !is_other(&kept.entries, &entry.key, &task) {
        return Ok(());
    }
    put(&entry.key, names)
}

pub(crate) fn is_other(entries: &Entries, key: &Name, task: &Option<Digest>) -> bool
    ensures { result ≡ is_other (first_entry entries.now key.now) task.now }
{
    match entries.find(key) {
        Some(entry) => !is_task(task, &entry.task),
        None => false,
    }
}

fn is_task(task: &Option<Digest>, digest: &Digest) -> bool
    ensures { result ≡ is_digest task.now digest.now }
{
    match task {
        Some(task) => *task == *digest,
        None => false,
    }
}
