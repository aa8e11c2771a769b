ghost use Rattle.std.specs.Prelude.{◌≡◌, ◌++◌, option_copied, IfOk, OnOk};
ghost use Rattle.carte_book.specs.Book.{book_view};
ghost use Rattle.carte_book.specs.Task.{task_now};
ghost use Rattle.carte_table.specs.Lookups.{first_value};
ghost use Rattle.carte_table.specs.Places.{places as places_of};
ghost use Rattle.carte_record.specs.Lookups.{is_trace_of};
ghost use Rattle.carte_rebuild.specs.Earlier.{is_wanted as wants, may_hold, check_at, checks_if, checks_in, checks_now};

use crate::{Checks, stored};
use carte_book::Book;
use carte_record::{Store, Trace, Traces};
use carte_task::Check;
use carte_value::{Digest, Name, NoMemory};
use std::alloc::Global;

/// The checks of a key's traces of its own task whose values are in the store, in the order of the traces; where a result
/// is wanted, of those with that result alone. A trace of another task is passed over before anything is looked up for it,
/// and what is no rule of the book has no checks. Of a key without traces no task is asked for.
pub fn checks_of(
    alloc: Global,
    book: &Book,
    traces: &Traces,
    values: &Store,
    key: &Name,
    wanted: Option<&Digest>,
) -> Result<Checks, NoMemory>
    ensures { IfOk result (λ checks. checks ≡ checks_now (task_now (book_view book.now) key.now) (option_copied wanted.entry) values.now key.now traces.now) }
{
    let places = traces.places(key);
    if places.is_empty() {
        return Ok(Checks::new());
    }
    match book.task_digest(alloc, key)? {
        Some(task) => checks_at(alloc, traces, places, values, key, &task, wanted),
        None => Ok(Checks::new()),
    }
}

fn checks_at(
    alloc: Global,
    traces: &Traces,
    places: &[u32],
    values: &Store,
    key: &Name,
    task: &Digest,
    wanted: Option<&Digest>,
) -> Result<Checks, NoMemory>
    requires { places.now ≡ places_of (is_trace_of key.now) traces.now }
    ensures { IfOk result (λ checks. checks ≡ checks_in task.now (option_copied wanted.entry) values.now key.now traces.now) }
{
    let mut checks = Checks::new();
    for at in places {
        add(
            alloc,
            traces.get(*at as usize),
            values,
            key,
            task,
            wanted,
            &mut checks,
        )?;
    }
    Ok(checks)
}

// The check of a trace, if there is one of the task and it has what is wanted.
fn add(
    alloc: Global,
    trace: Option<&Trace>,
    values: &Store,
    key: &Name,
    task: &Digest,
    wanted: Option<&Digest>,
    checks: &mut Checks,
) -> Result<(), NoMemory>
    ensures { OnOk result (checks.new ≡ checks.old ++ checks_if task.now (option_copied wanted.entry) values.now key.now (option_copied trace.entry)) }
{
    match trace {
        Some(trace) if may_hold(task, wanted, trace) => {
            add_check(alloc, trace, values, key, checks)
        }
        _ => Ok(()),
    }
}

fn may_hold(task: &Digest, wanted: Option<&Digest>, trace: &Trace) -> bool
    ensures { result ≡ may_hold task.now (option_copied wanted.entry) trace.now }
{
    trace.task == *task && is_wanted(wanted, &trace.result)
}

fn is_wanted(wanted: Option<&Digest>, digest: &Digest) -> bool
    ensures { result ≡ wants (option_copied wanted.entry) digest.now }
{
    match wanted {
        Some(other) => other.0.as_slice() == digest.0.as_slice(),
        None => true,
    }
}

fn add_check(
    alloc: Global,
    trace: &Trace,
    values: &Store,
    key: &Name,
    checks: &mut Checks,
) -> Result<(), NoMemory>
    ensures { OnOk result (checks.new ≡ checks.old ++ check_at (first_value values.now trace.now.result) key.now trace.now) }
{
    match stored(alloc, values, &trace.result)? {
        Some(value) => checks.push(alloc, Check::start(alloc, key, &trace.links, value)?),
        None => Ok(()),
    }
}
