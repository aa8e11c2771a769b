// How many bytes the live information takes.
ghost use Rattle.std.specs.Prelude.{◌≡◌, ◌+◌, List, [], length, IfOk, IfSome};
ghost use Rattle.std.specs.List.{flat_map};
ghost use Rattle.carte_codec.specs.Parts.{spelled_link, spelled_list, spelled_option};
ghost use Rattle.carte_record.specs.Bodies.{spelled_entry, spelled_names};
ghost use Rattle.carte_record.specs.declared.batch.Batch.{Batch as SomeBatch};
ghost use Rattle.carte_table.specs.Latest.{last_ones};
ghost use Rattle.carte_compact.specs.Lengths.{AreTraceLengths, back_size, front_size, region_length};
ghost use Rattle.carte_compact.specs.Live.{IsLive, chain_for, entry_at, found_at, link_at, put, stale_at};

use crate::content::Hashed;
use crate::entries::stale_at;
use crate::latest::last_first;
use crate::names::{entry_keys, seen_names};
use carte_codec::{Measured, list_length};
use carte_record::{Entries, Kept, Seen};
use carte_table::All;
use carte_value::{Name, Names, NoMemory, Seeded};
use std::alloc::Global;

/// In how many bytes the traces of each way are spelled behind which no equal one comes, with their number.
#[derive(Clone, Copy)]
pub(crate) struct TraceLengths {
    pub(crate) verifying: u64,
    pub(crate) constructive: u64,
    pub(crate) deep: u64,
}

/// The number of bytes of the live information as it is written behind roots: each body in its frame, and the gate byte
/// behind the last. It is worked out over all that is kept, without a copy of it. There is no memory either where the
/// number doesn't fit 64 bits.
pub fn live_length(alloc: Global, kept: &Kept) -> Result<u64, NoMemory>
    ensures { IfOk result (λ n. (Bs : List SomeBatch) → IsLive kept.now Bs → n ≡ region_length Bs) }
{
    let traces = trace_lengths(alloc, kept)?;
    length_with(alloc, kept, traces)
}

/// The same where the lengths of the traces are known.
pub(crate) fn length_with(alloc: Global, kept: &Kept, traces: TraceLengths) -> Result<u64, NoMemory>
    requires { AreTraceLengths kept.now traces.verifying traces.constructive traces.deep }
    ensures { IfOk result (λ n. (Bs : List SomeBatch) → IsLive kept.now Bs → n ≡ region_length Bs) }
{
    if kept.is_bare() {
        return Ok(1);
    }
    let names = seen_names(alloc, &kept.seen)?;
    let keys = entry_keys(alloc, &kept.entries)?;
    let stale = stale_at(alloc, &kept.entries, keys.as_slice())?;
    let back = back_length(kept, traces).ok_or(NoMemory)?;
    let front = front_length(kept, names.as_slice(), keys.as_slice(), &stale).ok_or(NoMemory)?;
    region_length(front, back).ok_or(NoMemory)
}

// The region of a batch of which the front and the back are so long.
fn region_length(front: u64, back: u64) -> Option<u64>
    ensures { IfSome result (λ n. n ≡ front + back + 7) }
{
    front.checked_add(back)?.checked_add(7)
}

fn front_length(kept: &Kept, names: &[Name], keys: &[Name], stale: &Names) -> Option<u64>
    requires { stale.now ≡ stale_at kept.now.entries keys.now }
    ensures { IfSome result (λ n. n ≡ front_size kept.now names.now keys.now) }
{
    list_length(kept.values.as_slice())?
        .checked_add(links_length(&kept.seen, names)?)?
        .checked_add(entries_length(&kept.entries, keys)?)?
        .checked_add(stale.length()?)?
        .checked_add(13)
}

fn back_length(kept: &Kept, traces: TraceLengths) -> Option<u64>
    requires { AreTraceLengths kept.now traces.verifying traces.constructive traces.deep }
    ensures { IfSome result (λ n. n ≡ back_size kept.now) }
{
    traces
        .verifying
        .checked_add(traces.constructive)?
        .checked_add(traces.deep)?
        .checked_add(chain_length(&kept.chain)?)
}

/// The lengths of the traces.
pub(crate) fn trace_lengths(alloc: Global, kept: &Kept) -> Result<TraceLengths, NoMemory>
    ensures { IfOk result (λ l. AreTraceLengths kept.now l.verifying l.constructive l.deep) }
{
    let hasher = kept.hasher();
    let verifying = traces_length(alloc, &kept.verifying, hasher)?;
    let constructive = traces_length(alloc, &kept.constructive, hasher)?;
    let deep = traces_length(alloc, &kept.deep, hasher)?;
    Ok(TraceLengths {
        verifying,
        constructive,
        deep,
    })
}

fn chain_length(chain: &Names) -> Option<u64>
    ensures { IfSome result (λ n. n ≡ length (spelled_option spelled_names (chain_for chain.now))) }
{
    if chain.is_empty() {
        return Some(1);
    }
    chain.length()?.checked_add(1)
}

// The traces behind which no equal one comes, with their number.
fn traces_length<T: Hashed + Drop>(
    alloc: Global,
    traces: &All<T>,
    hasher: Seeded,
) -> Result<u64, NoMemory>
    ensures { IfOk result (λ n. n ≡ length (spelled_list T.spelled (last_ones T.alike traces.now))) }
{
    let last = last_first(alloc, traces.as_slice(), hasher)?;
    list_length(last.as_slice()).ok_or(NoMemory)
}

// The first links of these names, without their number.
fn links_length(seen: &Seen, names: &[Name]) -> Option<u64>
    ensures { IfSome result (λ n. n ≡ length (flat_map spelled_link (found_at (link_at seen.now) names.now))) }
{
    let mut sum = 0u64;
    for name in names {
        sum = sum.checked_add(link_length(seen, name)?)?;
    }
    Some(sum)
}

fn link_length(seen: &Seen, name: &Name) -> Option<u64>
    ensures { IfSome result (λ n. n ≡ length (flat_map spelled_link (put (link_at seen.now name.now) []))) }
{
    match seen.find(name) {
        Some(digest) => name.length()?.checked_add(digest.length()?),
        None => Some(0),
    }
}

// The first entries of these keys, without their number.
fn entries_length(entries: &Entries, keys: &[Name]) -> Option<u64>
    ensures { IfSome result (λ n. n ≡ length (flat_map spelled_entry (found_at (entry_at entries.now) keys.now))) }
{
    let mut sum = 0u64;
    for key in keys {
        sum = sum.checked_add(entry_length(entries, key)?)?;
    }
    Some(sum)
}

fn entry_length(entries: &Entries, key: &Name) -> Option<u64>
    ensures { IfSome result (λ n. n ≡ length (flat_map spelled_entry (put (entry_at entries.now key.now) []))) }
{
    match entries.find(key) {
        Some(entry) => entry.length(),
        None => Some(0),
    }
}
