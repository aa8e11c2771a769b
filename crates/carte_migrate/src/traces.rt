ghost use Rattle.std.specs.Prelude.{◌≡◌, map, IfOk};
ghost use Rattle.carte_book.specs.Book.{book_view};
ghost use Rattle.carte_sound_one.specs.Up.{raised_trace};
ghost use Rattle.carte_migrate.specs.Tasks.{KnowsTasks};

use crate::tasks::Tasks;
use carte_record::{Trace, Traces};
use carte_record_one::{TraceOne, TracesOne};
use carte_value::{NoMemory, Same, Seeded};
use std::alloc::Global;

/// The same traces with the tasks of their keys.
pub(crate) fn raised_traces(
    alloc: Global,
    traces: &TracesOne,
    tasks: &Tasks<'_>,
    hasher: Seeded,
) -> Result<Traces, NoMemory>
    requires { KnowsTasks (book_view tasks.now.book.now) tasks.now.entries.now }
    ensures { IfOk result (λ list. list ≡ map (raised_trace (book_view tasks.now.book.now)) traces.now) }
{
    let mut list = Traces::new(alloc, hasher);
    for trace in traces.as_slice() {
        list.push(raised_trace(alloc, trace, tasks)?)?;
    }
    Ok(list)
}

// It shares the links.
fn raised_trace(alloc: Global, trace: &TraceOne, tasks: &Tasks<'_>) -> Result<Trace, NoMemory>
    requires { KnowsTasks (book_view tasks.now.book.now) tasks.now.entries.now }
    ensures { IfOk result (λ raised. raised ≡ raised_trace (book_view tasks.now.book.now) trace.now) }
{
    Ok(Trace {
        key: trace.key.copy(alloc)?,
        task: tasks.of(alloc, &trace.key)?,
        links: trace.links.copy()?,
        result: trace.result,
    })
}
