// Of equal traces the last.
ghost use Rattle.std.specs.Prelude.{◌≡◌, map, reverse, IfOk};
ghost use Rattle.carte_table.specs.Latest.{last_ones};

use crate::content::{Content, Hashed};
use carte_table::{All, Plain};
use carte_value::{NoMemory, Seeded};
use std::alloc::Global;
use std::collections::HashSet;

/// The traces behind which no equal one comes, in their order.
pub(crate) fn last_ones<T: Hashed + Drop>(
    alloc: Global,
    traces: &All<T>,
    hasher: Seeded,
) -> Result<Plain<T>, NoMemory>
    ensures { IfOk result (λ list. list ≡ last_ones T.alike traces.now) }
{
    let mut last = last_first(alloc, traces.as_slice(), hasher)?;
    last.reverse();
    copied(alloc, &last)
}

/// The same from the last one on.
pub(crate) fn last_first<'a, T: Hashed>(
    alloc: Global,
    traces: &'a [T],
    hasher: Seeded,
) -> Result<Vec<&'a T>, NoMemory>
    ensures { IfOk result (λ list. map (λ t. t.now) list.items ≡ reverse (last_ones T.alike traces.now)) }
{
    let mut later = HashSet::with_hasher(alloc, hasher);
    let mut list = Vec::new(alloc);
    let mut left = traces.len();
    while left > 0 {
        left -= 1;
        let trace = &traces[left];
        if later.insert(Content { trace })? {
            list.push(trace)?;
        }
    }
    Ok(list)
}

fn copied<T: Hashed + Drop>(alloc: Global, traces: &[&T]) -> Result<Plain<T>, NoMemory>
    ensures { IfOk result (λ list. list ≡ map (λ t. t.now) traces.now) }
{
    let mut list = Plain::new(alloc);
    for trace in traces {
        list.push(trace.same(alloc)?)?;
    }
    Ok(list)
}
