ghost use Rattle.std.specs.Prelude.{◌≡◌, ◌≤◌, ◌++◌, ◌∷◌, [], IfOk, OnOk, Some, drop, length, slice_get};
ghost use Rattle.carte_value.specs.Spelling.{digest_of};
ghost use Rattle.carte_book.specs.Book.{book_view};
ghost use Rattle.carte_note.specs.Methods.{how_of};
ghost use Rattle.carte_plan.specs.Ahead.{AreAhead};
ghost use Rattle.carte_plan.specs.Cuts.{AreCuts, cut_off, rest_of, with_all};

use crate::ahead::{behind_part, task_ahead, tasks_ahead};
use carte_book::Book;
use carte_effect::Made;
use carte_note::{Finished, Method, note_finished};
use carte_record::{Batch, Kept, Seen, Store, Way};
use carte_value::{Digest, NoMemory, Same, Seeded, Value};
use std::alloc::Global;
use std::mem;
use std::thread::Threads;

/// So many finished keys are committed by one batch.
pub const FULL_PART: usize = 256;

/// The batches of a build: those of full parts, and the last one.
#[derive(Drop)]
pub(crate) struct Cut {
    pub(crate) full: Vec<Batch>,
    pub(crate) last: Batch,
}

impl Cut {
    /// All of them, in their order.
    pub(crate) fn all(self) -> Result<Vec<Batch>, NoMemory>
        ensures { IfOk result (λ all. all.items ≡ self.full.items ++ self.last ∷ []) }
    {
        let Cut { full, last } = self;
        let mut all = full;
        all.push(last)?;
        Ok(all)
    }
}

/// Notes the finished keys part by part, each into a batch of its own. The first one begins as the batch that is handed in.
pub(crate) fn in_parts<T: Threads>(
    rt: &T,
    alloc: Global,
    method: Method,
    kept: &Kept,
    book: &Book,
    finished: &[Finished],
    opened: Batch,
) -> Result<Cut, NoMemory>
    ensures { IfOk result (λ cut. AreCuts (how_of method) (book_view book.now) kept.now finished.now opened (cut.full.items ++ cut.last ∷ [])) }
{
    let ahead = tasks_ahead(rt, alloc, book, finished)?;
    let mut tasks = ahead.as_slice();
    let mut full = Vec::new(alloc);
    let mut batch = opened;
    let mut rest = finished;
    while rest.len() > FULL_PART {
        let (part, more) = rest.split_at(FULL_PART);
        let next = next_part(alloc, method, kept, book, part, tasks, &mut batch)?;
        full.push(next)?;
        rest = more;
        tasks = behind_part(tasks);
    }
    let last = last_part(alloc, method, kept, book, rest, tasks, batch)?;
    Ok(Cut { full, last })
}

fn next_part(
    alloc: Global,
    method: Method,
    kept: &Kept,
    book: &Book,
    part: &[Finished],
    tasks: &[Option<Digest>],
    batch: &mut Batch,
) -> Result<Batch, NoMemory>
    requires { AreAhead (book_view book.now) part.now tasks.now }
    ensures part { IfOk result (λ cut. cut ≡ cut_off batch.old (with_all (how_of method) (book_view book.now) kept.now part.now batch.old)) }
    ensures rest { OnOk result (batch.new ≡ rest_of (with_all (how_of method) (book_view book.now) kept.now part.now batch.old)) }
{
    let values = batch.values.len();
    let seen = batch.seen.len();
    note_part(alloc, method, kept, book, part, tasks, batch)?;
    take_part(alloc, book.hasher(), batch, values, seen)
}

fn last_part(
    alloc: Global,
    method: Method,
    kept: &Kept,
    book: &Book,
    part: &[Finished],
    tasks: &[Option<Digest>],
    opened: Batch,
) -> Result<Batch, NoMemory>
    requires { AreAhead (book_view book.now) part.now tasks.now }
    ensures { IfOk result (λ cut. cut ≡ cut_off opened (with_all (how_of method) (book_view book.now) kept.now part.now opened)) }
{
    let values = opened.values.len();
    let seen = opened.seen.len();
    let mut batch = opened;
    note_part(alloc, method, kept, book, part, tasks, &mut batch)?;
    take_last(alloc, book.hasher(), batch, values, seen)
}

// Where nothing was cut off before, the batch is the only one, and nothing of it is copied.
fn take_last(
    alloc: Global,
    hasher: Seeded,
    whole: Batch,
    values: usize,
    seen: usize,
) -> Result<Batch, NoMemory>
    ensures { IfOk result (λ cut. cut ≡ record whole { values = drop values whole.values; seen = drop seen whole.seen }) }
{
    if values == 0 && seen == 0 {
        return Ok(whole);
    }
    let mut batch = whole;
    take_part(alloc, hasher, &mut batch, values, seen)
}

fn note_part(
    alloc: Global,
    method: Method,
    kept: &Kept,
    book: &Book,
    part: &[Finished],
    tasks: &[Option<Digest>],
    batch: &mut Batch,
) -> Result<(), NoMemory>
    requires { AreAhead (book_view book.now) part.now tasks.now }
    ensures { OnOk result (batch.new ≡ with_all (how_of method) (book_view book.now) kept.now part.now batch.old) }
{
    batch.widen(count_ran(part), way_of(method));
    for at in 0..part.len() {
        let task = task_ahead(tasks, at);
        note_finished(alloc, task, method, kept, book, &part[at], batch)?;
    }
    Ok(())
}

/// What didn't run mostly brings nothing, so nothing is made ready for it.
pub(crate) fn count_ran(part: &[Finished]) -> usize {
    let mut count = 0usize;
    for one in part {
        if let Made::Ran(_) = &one.made {
            count = count.saturating_add(1);
        }
    }
    count
}

// Of which way the traces are that a rebuilder writes.
fn way_of(method: Method) -> Option<Way> {
    match method {
        Method::Dirty => None,
        Method::Tracing(way) => Some(way),
    }
}

// Entries and traces are moved. Values and links stay for the keys that come, and what is copied of them is short or shared.
fn take_part(
    alloc: Global,
    hasher: Seeded,
    batch: &mut Batch,
    values: usize,
    seen: usize,
) -> Result<Batch, NoMemory>
    ensures part { IfOk result (λ cut. cut ≡ record batch.old { values = drop values batch.old.values; seen = drop seen batch.old.seen }) }
    ensures rest { OnOk result (batch.new ≡ rest_of batch.old) }
{
    let new_values = values_behind(alloc, hasher, &batch.values, values)?;
    let new_seen = seen_behind(alloc, hasher, &batch.seen, seen)?;
    let mut part = mem::replace(batch, Batch::new(alloc, hasher));
    batch.values = mem::replace(&mut part.values, new_values);
    batch.seen = mem::replace(&mut part.seen, new_seen);
    Ok(part)
}

fn values_behind(
    alloc: Global,
    hasher: Seeded,
    values: &Store,
    from: usize,
) -> Result<Store, NoMemory>
    ensures { IfOk result (λ behind. behind ≡ drop from values.now) }
{
    let mut behind = Store::new(alloc, hasher);
    for at in from..values.len() {
        let value = &values.as_slice()[at];
        let digest = digest_at(values, at, value);
        behind.push_with(value.copy(alloc)?, digest)?;
    }
    Ok(behind)
}

// It stands there, so it isn't taken again.
fn digest_at(values: &Store, at: usize, value: &Value) -> Digest
    requires { slice_get values.now at ≡ Some value.now }
    ensures { result ≡ digest_of value.now }
{
    match values.digest(at) {
        Some(digest) => *digest,
        None => value.digest(),
    }
}

fn seen_behind(alloc: Global, hasher: Seeded, seen: &Seen, from: usize) -> Result<Seen, NoMemory>
    ensures { IfOk result (λ behind. behind ≡ drop from seen.now) }
{
    let mut behind = Seen::new(alloc, hasher);
    for at in from..seen.len() {
        behind.push(seen.as_slice()[at].same(alloc)?)?;
    }
    Ok(behind)
}
