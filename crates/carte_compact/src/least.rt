// What the live information takes at least, by the lengths that the lists know.
ghost use Rattle.std.specs.Prelude.{◌≡◌, ◌≤◌, ◌+◌, ℕ, List, length, IfSome};
ghost use Rattle.carte_codec.specs.Parts.{spelled_list, spelled_option};
ghost use Rattle.carte_record.specs.Bodies.{spelled_names};
ghost use Rattle.carte_table.specs.Latest.{last_ones};
ghost use Rattle.carte_record.specs.declared.batch.Batch.{Batch as SomeBatch};
ghost use Rattle.carte_value.specs.Truths.{Among, IsListOf};
ghost use Rattle.carte_compact.specs.Lengths.{back_size, front_size, region_length};
ghost use Rattle.carte_compact.specs.Live.{IsLive, chain_for, keys_of, names_of};

use carte_record::Kept;
use carte_table::{All, Compared};
use carte_value::Names;

/// How many bytes the live information takes at least. It takes no pass over what is kept, and no memory. It is the live
/// length but for marks, the names of a chain, and traces of keys that have many.
pub fn least_length(kept: &Kept) -> u64
    ensures { (Bs : List SomeBatch) → IsLive kept.now Bs → result ≤ region_length Bs }
{
    if kept.is_bare() {
        return 0;
    }
    match least_of(kept) {
        Some(least) => least,
        None => 0,
    }
}

fn least_of(kept: &Kept) -> Option<u64>
    ensures { IfSome result (λ n. (names keys : List (List ℕ)) → IsListOf (Among (names_of kept.now.seen)) names → IsListOf (Among (keys_of kept.now.entries)) keys → n ≤ front_size kept.now names keys + back_size kept.now + 7) }
{
    let front = least_front(kept)?;
    let back = least_back(kept)?;
    sum_of(front, back, 0, 0, 7)
}

// Values, links and entries come with their numbers, of 4 bytes each, and so do the names that are dropped, of which there
// are none, and the marks. A byte says that the batch goes on.
fn least_front(kept: &Kept) -> Option<u64>
    ensures { IfSome result (λ n. (names keys : List (List ℕ)) → IsListOf (Among (names_of kept.now.seen)) names → IsListOf (Among (keys_of kept.now.entries)) keys → n ≤ front_size kept.now names keys) }
{
    let values = kept.values.length()?;
    let links = kept.seen.length()?;
    let entries = kept.entries.length()?;
    sum_of(values, links, entries, 0, 21)
}

fn least_back(kept: &Kept) -> Option<u64>
    ensures { IfSome result (λ n. n ≤ back_size kept.now) }
{
    let verifying = least_traces(&kept.verifying);
    let constructive = least_traces(&kept.constructive);
    let deep = least_traces(&kept.deep);
    let chain = least_chain(&kept.chain);
    sum_of(verifying, constructive, deep, chain, 12)
}

// Without their number.
fn least_traces<T: Compared + Drop>(traces: &All<T>) -> u64
    ensures { result + 4 ≤ length (spelled_list T.spelled (last_ones T.alike traces.now)) }
{
    traces.least_length()
}

// Each name takes a byte at least.
fn least_chain(chain: &Names) -> u64
    ensures { result ≤ length (spelled_option spelled_names (chain_for chain.now)) }
{
    chain.len() as u64 + 1
}

fn sum_of(first: u64, second: u64, third: u64, fourth: u64, beside: u64) -> Option<u64>
    ensures { IfSome result (λ n. n ≡ first + second + third + fourth + beside) }
{
    first
        .checked_add(second)?
        .checked_add(third)?
        .checked_add(fourth)?
        .checked_add(beside)
}
