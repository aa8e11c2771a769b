// Why a key that isn't held runs, from its entry or from its traces.
ghost use Rattle.std.specs.Prelude.{◌≡◌, IfOk, Some, option_copied};
ghost use Rattle.carte_book.specs.Book.{book_view};
ghost use Rattle.carte_book.specs.Task.{task_now};
ghost use Rattle.carte_record.specs.Kept.{kept_view};
ghost use Rattle.carte_record.specs.Lookups.{first_entry};
ghost use Rattle.carte_explain.specs.Found.{FindsCause, FindsEntry, FindsPath, by_task, constructive_why, deep_why, differing_why, digest_found, path_why, stored_why, trace_why, traces_why, untold_why, verifying_why};

use crate::paths::{changed_path, ends_in_input};
use crate::traces::{digest_or_empty, first_apart, matching, newest, newest_deep};
use crate::{RebuilderKind, Why};
use carte_book::Book;
use carte_note::FinishedList;
use carte_record::{Entry, Kept, Trace, Way};
use carte_value::{Digest, Link, Name, Names, NoMemory};
use std::alloc::Global;

pub(crate) fn cause(
    alloc: Global,
    kept: &Kept,
    book: &Book,
    finished: &FinishedList,
    rebuilder: RebuilderKind,
    key: &Name,
) -> Result<Why, NoMemory>
    ensures { IfOk result (FindsCause rebuilder kept.now (book_view book.now) finished.now key.now) }
{
    match rebuilder {
        RebuilderKind::Dirty => entry_why(alloc, kept, book, key),
        RebuilderKind::Verifying => tracing_why(alloc, kept, book, finished, key),
        RebuilderKind::Constructive => constructed_why(alloc, kept, book, finished, key),
        RebuilderKind::Deep => deep_why(alloc, kept, book, finished, key),
    }
}

fn entry_why(alloc: Global, kept: &Kept, book: &Book, key: &Name) -> Result<Why, NoMemory>
    ensures { IfOk result (FindsEntry (first_entry kept.now.entries key.now) (kept_view kept.now) (book_view book.now) key.now) }
{
    match kept.entries.find(key) {
        None => Ok(Why::NoEntry),
        Some(entry) if entry.stale => Ok(Why::Stale),
        Some(entry) if entry.shallow => Ok(Why::Shallow),
        Some(_) => path_why(alloc, kept, book, key),
    }
}

fn path_why(alloc: Global, kept: &Kept, book: &Book, key: &Name) -> Result<Why, NoMemory>
    ensures { IfOk result (FindsPath (kept_view kept.now) (book_view book.now) key.now) }
{
    match changed_path(alloc, kept, book, key)? {
        Some(path) => Ok(dirty_why(kept, book, path)),
        None => Ok(Why::Reusable),
    }
}

// The path ends in a name that has changed: where it wasn't seen so, its task is another.
fn dirty_why(kept: &Kept, book: &Book, path: Names) -> Why
    ensures { result ≡ path_why (kept_view kept.now) (book_view book.now) (Some path) }
{
    if ends_in_input(kept, book, &path) {
        Why::DirtyInput(path)
    } else {
        Why::DirtyRule(path)
    }
}

// By traces of the present task. What is no rule has none, and doesn't run.
fn tracing_why(
    alloc: Global,
    kept: &Kept,
    book: &Book,
    finished: &FinishedList,
    key: &Name,
) -> Result<Why, NoMemory>
    ensures { IfOk result (λ why. why ≡ by_task (verifying_why kept.now (book_view book.now) finished.now key.now) (task_now (book_view book.now) key.now)) }
{
    match book.task_digest(alloc, key)? {
        Some(task) => verifying_why(alloc, kept, book, finished, key, &task),
        None => Ok(Why::NoTrace),
    }
}

fn constructed_why(
    alloc: Global,
    kept: &Kept,
    book: &Book,
    finished: &FinishedList,
    key: &Name,
) -> Result<Why, NoMemory>
    ensures { IfOk result (λ why. why ≡ by_task (constructive_why kept.now (book_view book.now) finished.now key.now) (task_now (book_view book.now) key.now)) }
{
    let traces = kept.constructive.as_slice();
    match book.task_digest(alloc, key)? {
        Some(task) => traces_why(alloc, traces, book, finished, Way::Constructive, key, &task),
        None => Ok(Why::NoTrace),
    }
}

fn verifying_why(
    alloc: Global,
    kept: &Kept,
    book: &Book,
    finished: &FinishedList,
    key: &Name,
    task: &Digest,
) -> Result<Why, NoMemory>
    ensures { IfOk result (λ why. why ≡ verifying_why kept.now (book_view book.now) finished.now key.now task.now) }
{
    let traces = kept.verifying.as_slice();
    match matching(traces, book, finished, key, task) {
        Some(trace) => Ok(stored_why(kept.entries.find(key), trace)),
        None => traces_why(alloc, traces, book, finished, Way::Verifying, key, task),
    }
}

fn stored_why(entry: Option<&Entry>, trace: &Trace) -> Why
    ensures { result ≡ stored_why (option_copied entry.entry) trace.now }
{
    match entry {
        Some(entry) => Why::StoredDiffers {
            stored: entry.result,
            result: trace.result,
        },
        None => Why::NoEntry,
    }
}

fn traces_why(
    alloc: Global,
    traces: &[Trace],
    book: &Book,
    finished: &FinishedList,
    way: Way,
    key: &Name,
    task: &Digest,
) -> Result<Why, NoMemory>
    ensures { IfOk result (λ why. why ≡ traces_why way traces.now (book_view book.now) finished.now key.now task.now) }
{
    match newest(traces, key, Some(task)) {
        Some(trace) => trace_why(alloc, book, finished, way, trace.links.as_slice()),
        None => Ok(untold_why(newest(traces, key, None).is_some())),
    }
}

// By traces whose rules all have their present tasks.
fn deep_why(
    alloc: Global,
    kept: &Kept,
    book: &Book,
    finished: &FinishedList,
    key: &Name,
) -> Result<Why, NoMemory>
    ensures { IfOk result (λ why. why ≡ deep_why kept.now (book_view book.now) finished.now key.now) }
{
    let traces = kept.deep.as_slice();
    match newest_deep(alloc, traces, book, key, true)? {
        Some(trace) => trace_why(alloc, book, finished, Way::Deep, trace.links.as_slice()),
        None => {
            let any = newest_deep(alloc, traces, book, key, false)?;
            Ok(untold_why(any.is_some()))
        }
    }
}

// Where no trace is of the present tasks, by whether there is one.
fn untold_why(any: bool) -> Why
    ensures { result ≡ untold_why any }
{
    if any { Why::RuleChanged } else { Why::NoTrace }
}

// A trace that holds isn't one of a key that runs, whatever history what is kept is sound for.
fn trace_why(
    alloc: Global,
    book: &Book,
    finished: &FinishedList,
    way: Way,
    links: &[Link],
) -> Result<Why, NoMemory>
    ensures { IfOk result (λ why. why ≡ trace_why (digest_found way (book_view book.now) finished.now) links.now) }
{
    match first_apart(links, way, book, finished) {
        Some(link) => differing_why(alloc, book, finished, way, link),
        None => Ok(Why::Reusable),
    }
}

fn differing_why(
    alloc: Global,
    book: &Book,
    finished: &FinishedList,
    way: Way,
    link: &Link,
) -> Result<Why, NoMemory>
    ensures { IfOk result (λ why. why ≡ differing_why (digest_found way (book_view book.now) finished.now) link.now) }
{
    Ok(Why::FirstDifference {
        name: link.name.copy(alloc)?,
        old: link.digest,
        new: digest_or_empty(way, book, finished, &link.name),
    })
}
