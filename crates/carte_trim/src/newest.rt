// The newest traces of each key.
ghost use Rattle.std.specs.Prelude.{◌≡◌, ◌+◌, ◌<◌, nat_lt, length, drop, get_or, IfOk};
ghost use Rattle.carte_trim.specs.Lists.{count_of, newest_of};

use carte_table::{All, Compared, Plain};
use carte_value::{NoMemory, Seeded};
use std::alloc::Global;

/// Of each key the last `count` traces, in their order.
pub(crate) fn newest_of<T: Compared + Drop>(
    alloc: Global,
    traces: Plain<T>,
    count: u64,
    hasher: Seeded,
) -> Result<Plain<T>, NoMemory>
    ensures { IfOk result (λ list. list ≡ newest_of T.key_of count traces) }
{
    let traces = All::with_places(alloc, traces.into_items(), hasher)?;
    newest_in(alloc, &traces, count)
}

fn newest_in<T: Compared + Drop>(
    alloc: Global,
    traces: &All<T>,
    count: u64,
) -> Result<Plain<T>, NoMemory>
    ensures { IfOk result (λ list. list ≡ newest_of T.key_of count traces.now) }
{
    let mut list = Plain::new(alloc);
    let all = traces.as_slice();
    for at in 0..all.len() {
        let trace = &all[at];
        if is_newest(traces, trace, at, count) {
            list.push(trace.same(alloc)?)?;
        }
    }
    Ok(list)
}

// Whether fewer than so many traces of its key stand behind a trace: where the places of that key tell of more, the first
// place that counts isn't behind this one.
fn is_newest<T: Compared + Drop>(traces: &All<T>, trace: &T, at: usize, count: u64) -> bool
    requires there { at < length traces.now }
    requires is { trace.now ≡ get_or traces.now at trace.now }
    ensures { result ≡ nat_lt (count_of T.key_of (T.key_of trace.now) (drop (at + 1) traces.now)) count }
{
    let key = trace.key();
    let places = traces.places(key);
    let number = places.len() as u64;
    if number <= count {
        return true;
    }
    if count == 0 {
        return false;
    }
    let first = places[(number - count) as usize];
    first as usize <= at
}
