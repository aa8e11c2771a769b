ghost use Rattle.std.specs.Prelude.{◌≡◌, false, OnOk, IfOk, IfSome};
ghost use Rattle.carte_value.specs.Lists.{Begins};
ghost use Rattle.carte_value.specs.Spelling.{digest_of};
ghost use Rattle.carte_book.specs.Book.{book_view};
ghost use Rattle.carte_record.specs.Growth.{GrowsBatch};
ghost use Rattle.carte_record.specs.Kept.{kept_view};
ghost use Rattle.carte_note.specs.Grown.{Grown};
ghost use Rattle.carte_note.specs.Methods.{how_of};
ghost use Rattle.carte_note.specs.Notes.{Notes, AreUnmarked};
ghost use Rattle.carte_note.specs.Writes.{brings_nothing, deep_noted, digest_made, needs_noted, task_made, traced, with_value, with_run, with_entry, with_finished};

use crate::digests::Digests;
use crate::entry::{brings_nothing, entry, stays_as};
use crate::finished::{has_run, links_noted};
use crate::see::see_all;
use crate::{Finished, Method};
use carte_book::Book;
use carte_record::{Batch, DeepTrace, Kept, Store, Trace, Way};
use carte_value::{Digest, NoMemory, Value};
use std::alloc::Global;

/// Adds to the batch of a build what one more finished key brings: the value that the store lacks and the trace,
/// where its task ran, and the entry with the inputs that it names, where those differ from what is kept. `kept` is
/// what the build began with, and `task` the digest of the key's task, where it was worked out already. Where there is
/// no memory the batch may hold a part of it; a key that is no rule of the book has no task, and is refused so too.
pub fn note_finished(
    alloc: Global,
    task: Option<Digest>,
    method: Method,
    kept: &Kept,
    book: &Book,
    finished: &Finished,
    batch: &mut Batch,
) -> Result<(), NoMemory>
    requires { IfSome task (λ d. d ≡ task_made (book_view book.now) finished.now) }
    ensures notes { OnOk result (Notes (how_of method) (kept_view kept.now) (book_view book.now) finished.now batch.old batch.new) }
    ensures unmarked { OnOk result (AreUnmarked batch.old.entries → AreUnmarked batch.new.entries) }
    ensures front { GrowsBatch batch.old batch.new }
    ensures start { batch.new.start ≡ batch.old.start }
    ensures gone { batch.new.gone ≡ batch.old.gone }
    ensures stale { batch.new.stale ≡ batch.old.stale }
    ensures chain { batch.new.chain ≡ batch.old.chain }
    ensures items { OnOk result (batch.new ≡ with_finished (how_of method) (book_view book.now) kept.now finished.now batch.old) }
{
    note_items(alloc, task, method, kept, book, finished, batch)
}

fn note_items(
    alloc: Global,
    task: Option<Digest>,
    method: Method,
    kept: &Kept,
    book: &Book,
    finished: &Finished,
    batch: &mut Batch,
) -> Result<(), NoMemory>
    requires { IfSome task (λ d. d ≡ task_made (book_view book.now) finished.now) }
    ensures grown { Grown batch.old batch.new }
    ensures noted { OnOk result (batch.new ≡ with_finished (how_of method) (book_view book.now) kept.now finished.now batch.old) }
{
    if brings_nothing(method, finished) {
        return Ok(());
    }
    let digests = Digests::of(alloc, task, book, finished)?;
    note_run(alloc, method, kept, book, finished, digests, batch)?;
    note_entry(alloc, method, kept, book, finished, digests, batch)
}

fn note_run(
    alloc: Global,
    method: Method,
    kept: &Kept,
    book: &Book,
    finished: &Finished,
    digests: Digests,
    batch: &mut Batch,
) -> Result<(), NoMemory>
    requires made { digests.result ≡ digest_made finished.now }
    requires task { digests.task ≡ task_made (book_view book.now) finished.now }
    ensures grown { Grown batch.old batch.new }
    ensures noted { OnOk result (batch.new ≡ with_run (how_of method) (book_view book.now) kept.now finished.now batch.old) }
{
    if !has_run(&finished.made) {
        return Ok(());
    }
    let value = finished.made.value();
    note_value(
        alloc,
        &kept.values,
        value,
        digests.result,
        &mut batch.values,
    )?;
    match method {
        Method::Dirty => Ok(()),
        Method::Tracing(way) => note_trace(alloc, way, finished, digests, batch),
    }
}

fn note_value(
    alloc: Global,
    kept: &Store,
    value: &Value,
    digest: Digest,
    values: &mut Store,
) -> Result<(), NoMemory>
    requires { digest ≡ digest_of value.now }
    ensures front { Begins values.old values.new }
    ensures noted { OnOk result (values.new ≡ with_value kept.now value.now values.old) }
{
    if kept.find(&digest).is_some() || values.find(&digest).is_some() {
        return Ok(());
    }
    values.push_with(value.copy(alloc)?, digest)
}

fn note_trace(
    alloc: Global,
    way: Way,
    finished: &Finished,
    digests: Digests,
    batch: &mut Batch,
) -> Result<(), NoMemory>
    requires { digests.result ≡ digest_made finished.now }
    ensures grown { Grown batch.old batch.new }
    ensures noted { OnOk result (batch.new ≡ traced way digests.task finished.now batch.old) }
{
    match way {
        Way::Verifying => batch.verifying.push(needs_trace(alloc, finished, digests)?),
        Way::Constructive => batch
            .constructive
            .push(needs_trace(alloc, finished, digests)?),
        Way::Deep => batch
            .deep
            .push(deep_trace(alloc, finished, digests.result)?),
    }
}

// The links are shared with what was made.
fn needs_trace(alloc: Global, finished: &Finished, digests: Digests) -> Result<Trace, NoMemory>
    requires { digests.result ≡ digest_made finished.now }
    ensures { IfOk result (λ t. t ≡ needs_noted digests.task finished.now) }
{
    Ok(Trace {
        key: finished.made.key().copy(alloc)?,
        task: digests.task,
        links: finished.made.shared_links().copy()?,
        result: digests.result,
    })
}

fn deep_trace(alloc: Global, finished: &Finished, digest: Digest) -> Result<DeepTrace, NoMemory>
    requires { digest ≡ digest_made finished.now }
    ensures { IfOk result (λ t. t ≡ deep_noted finished.now) }
{
    Ok(DeepTrace {
        key: finished.made.key().copy(alloc)?,
        tasks: finished.tasks.copy(alloc)?,
        links: finished.beneath.copy(alloc)?,
        result: digest,
    })
}

fn note_entry(
    alloc: Global,
    method: Method,
    kept: &Kept,
    book: &Book,
    finished: &Finished,
    digests: Digests,
    batch: &mut Batch,
) -> Result<(), NoMemory>
    requires made { digests.result ≡ digest_made finished.now }
    requires task { digests.task ≡ task_made (book_view book.now) finished.now }
    requires some { brings_nothing (how_of method) finished.now ≡ false }
    ensures grown { Grown batch.old batch.new }
    ensures noted { OnOk result (batch.new ≡ with_entry (how_of method) (book_view book.now) kept.now finished.now batch.old) }
{
    if stays_as(method, kept, finished, digests) {
        return Ok(());
    }
    let links = links_noted(method, finished);
    see_all(alloc, &kept.seen, book, links, &mut batch.seen)?;
    batch.entries.push(entry(alloc, method, finished, digests)?)
}
