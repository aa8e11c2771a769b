// Traces and their links, over the digests that names have at the end of the work.
ghost use Rattle.std.specs.Prelude.{◌≡◌, ◌||◌, not, option_copied, unwrap_or, find, IfOk};
ghost use Rattle.carte_book.specs.Book.{book_view};
ghost use Rattle.carte_book.specs.Task.{task_now};
ghost use Rattle.carte_note.specs.Lists.{finished_of};
ghost use Rattle.carte_table.specs.Lookups.{find_last};
ghost use Rattle.carte_rebuild.specs.Earlier.{is_wanted as wants};
ghost use Rattle.carte_sound.specs.Begun.{is_digest};
ghost use Rattle.carte_sound.specs.Held.{are_so};
ghost use Rattle.carte_value.specs.Spelling.{digest_of};
ghost use Rattle.carte_value.specs.declared.value.Value.TheVariants.{Empty};
ghost use Rattle.carte_record.specs.declared.way.Way.TheVariants.{Verifying as by_links};
ghost use Rattle.carte_explain.specs.Found.{digest_found, digest_made, is_apart, is_deep_with, is_match, is_of_needs, is_trace_with};

use carte_book::{Book, Looked};
use carte_note::FinishedList;
use carte_rebuild::are_tasks;
use carte_record::{DeepTrace, Trace, Way};
use carte_value::{Digest, Link, Name, NoMemory, Value};
use std::alloc::Global;

/// The last trace of a key, where a task is wanted that of this task.
pub(crate) fn newest<'k>(
    traces: &'k [Trace],
    key: &Name,
    wanted: Option<&Digest>,
) -> Option<&'k Trace>
    ensures { option_copied result ≡ find_last (is_trace_with key.now (option_copied wanted.entry)) traces.now }
{
    let mut newest = None;
    for trace in traces {
        if is_trace_with(trace, key, wanted) {
            newest = Some(trace);
        }
    }
    newest
}

fn is_trace_with(trace: &Trace, key: &Name, wanted: Option<&Digest>) -> bool
    ensures { result ≡ is_trace_with key.now (option_copied wanted.entry) trace.now }
{
    *key == trace.key && is_wanted(wanted, &trace.task)
}

fn is_wanted(wanted: Option<&Digest>, digest: &Digest) -> bool
    ensures { result ≡ wants (option_copied wanted.entry) digest.now }
{
    match wanted {
        Some(other) => *other == *digest,
        None => true,
    }
}

/// The last deep trace of a key, and where that is asked for the last one whose rules all have their present tasks.
pub(crate) fn newest_deep<'k>(
    alloc: Global,
    traces: &'k [DeepTrace],
    book: &Book,
    key: &Name,
    told: bool,
) -> Result<Option<&'k DeepTrace>, NoMemory>
    ensures { IfOk result (λ trace. option_copied trace ≡ find_last (is_deep_with told (book_view book.now) key.now) traces.now) }
{
    let mut last = None;
    for trace in traces {
        if is_deep_with(alloc, trace, book, key, told)? {
            last = Some(trace);
        }
    }
    Ok(last)
}

fn is_deep_with(
    alloc: Global,
    trace: &DeepTrace,
    book: &Book,
    key: &Name,
    told: bool,
) -> Result<bool, NoMemory>
    ensures { IfOk result (λ is. is ≡ is_deep_with told (book_view book.now) key.now trace.now) }
{
    if *key == trace.key {
        return is_told(alloc, trace, book, told);
    }
    Ok(false)
}

fn is_told(alloc: Global, trace: &DeepTrace, book: &Book, told: bool) -> Result<bool, NoMemory>
    ensures { IfOk result (λ is. is ≡ (not told || are_so (task_now (book_view book.now)) trace.now.tasks)) }
{
    if told {
        return are_tasks(alloc, book, &trace.tasks);
    }
    Ok(true)
}

/// The first verifying trace of a key and a task whose links all have the present digests.
pub(crate) fn matching<'k>(
    traces: &'k [Trace],
    book: &Book,
    finished: &FinishedList,
    key: &Name,
    task: &Digest,
) -> Option<&'k Trace>
    ensures { option_copied result ≡ find (is_match (digest_found by_links (book_view book.now) finished.now) key.now task.now) traces.now }
{
    for trace in traces {
        if is_match(trace, book, finished, key, task) {
            return Some(trace);
        }
    }
    None
}

fn is_match(trace: &Trace, book: &Book, finished: &FinishedList, key: &Name, task: &Digest) -> bool
    ensures { result ≡ is_match (digest_found by_links (book_view book.now) finished.now) key.now task.now trace.now }
{
    is_trace_with(trace, key, Some(task))
        && first_apart(trace.links.as_slice(), Way::Verifying, book, finished).is_none()
}

/// The first link whose name has another digest now, or none.
pub(crate) fn first_apart<'k>(
    links: &'k [Link],
    way: Way,
    book: &Book,
    finished: &FinishedList,
) -> Option<&'k Link>
    ensures { option_copied result ≡ find (is_apart (digest_found way (book_view book.now) finished.now)) links.now }
{
    for link in links {
        if is_apart(link, way, book, finished) {
            return Some(link);
        }
    }
    None
}

fn is_apart(link: &Link, way: Way, book: &Book, finished: &FinishedList) -> bool
    ensures { result ≡ is_apart (digest_found way (book_view book.now) finished.now) link.now }
{
    match digest_found(way, book, finished, &link.name) {
        Some(digest) => digest != link.digest,
        None => true,
    }
}

/// The digest that a name has now, and that of the empty value where it has none.
pub(crate) fn digest_or_empty(way: Way, book: &Book, finished: &FinishedList, name: &Name) -> Digest
    ensures { result ≡ unwrap_or (digest_found way (book_view book.now) finished.now name.now) (digest_of Empty) }
{
    match digest_found(way, book, finished, name) {
        Some(digest) => digest,
        None => Value::Empty.digest(),
    }
}

// That of an input, and where traces link needs that of a finished key.
fn digest_found(way: Way, book: &Book, finished: &FinishedList, name: &Name) -> Option<Digest>
    ensures { result ≡ digest_found way (book_view book.now) finished.now name.now }
{
    match book.lookup(name) {
        Looked::Input(value) => Some(value.digest()),
        Looked::Rule(_) if is_of_needs(way) => digest_made(finished, name),
        Looked::Rule(_) => None,
        Looked::None => None,
    }
}

fn is_of_needs(way: Way) -> bool
    ensures { result ≡ is_of_needs way }
{
    match way {
        Way::Verifying => true,
        Way::Constructive => true,
        Way::Deep => false,
    }
}

fn digest_made(finished: &FinishedList, name: &Name) -> Option<Digest>
    ensures { result ≡ digest_made (finished_of finished.now name.now) }
{
    match finished.find(name) {
        Some(one) => Some(one.made.value().digest()),
        None => None,
    }
}
