ghost use Rattle.std.specs.Prelude.{◌≡◌, map, IfOk};
ghost use Rattle.carte_book.specs.Book.{book_view};
ghost use Rattle.carte_record.specs.Kept.{kept_view};
ghost use Rattle.carte_record_one.specs.Kept.{kept_one_view};
ghost use Rattle.carte_sound.specs.Begun.{is_digest};
ghost use Rattle.carte_sound.specs.Lists.{EachOnce};
ghost use Rattle.carte_sound_one.specs.Up.{raised, up};
ghost use Rattle.carte_table.specs.Lookups.{first_value};
ghost use Rattle.carte_value.specs.Spelling.{digest_of};
ghost use Rattle.carte_value.specs.declared.digest.Digest.{Digest as SomeDigest};

use crate::entries::raised_entries;
use crate::tasks::Tasks;
use crate::traces::raised_traces;
use crate::values::first_values;
use carte_book::Book;
use carte_record::{DeepTraces, Kept, Seen, Store};
use carte_record_one::KeptOne;
use carte_value::{Digest, Names, NoMemory};
use std::alloc::Global;

/// What is kept of version 1, under the tasks of the book: nothing where that has other rules.
pub fn raise(alloc: Global, old: &KeptOne, book: &Book) -> Result<Kept, NoMemory>
    ensures view { IfOk result (λ kept. kept_view kept ≡ up (kept_one_view old.now) (book_view book.now)) }
    ensures once { IfOk result (λ kept. EachOnce (map digest_of kept.values)) }
{
    let rules = book.rules_digest(alloc)?;
    if is_about(old, rules) {
        return raised(alloc, old, book);
    }
    Ok(Kept::empty(alloc, old.seen.hasher()))
}

// Whether it is about rules with this digest.
fn is_about(old: &KeptOne, rules: Digest) -> bool
    ensures { result ≡ is_digest old.now.rules rules }
{
    match old.rules {
        Some(digest) => digest == rules,
        None => false,
    }
}

fn raised(alloc: Global, old: &KeptOne, book: &Book) -> Result<Kept, NoMemory>
    ensures view { IfOk result (λ kept. kept_view kept ≡ raised (kept_one_view old.now) (book_view book.now)) }
    ensures once { IfOk result (λ kept. EachOnce (map digest_of kept.values)) }
{
    let hasher = old.seen.hasher();
    let entries = raised_entries(alloc, &old.entries, book, hasher)?;
    let tasks = Tasks {
        book,
        entries: &entries,
    };
    let verifying = raised_traces(alloc, &old.verifying, &tasks, hasher)?;
    let constructive = raised_traces(alloc, &old.constructive, &tasks, hasher)?;
    let rest = rest_of(alloc, old)?;
    Ok(Kept {
        seen: rest.seen,
        entries,
        verifying,
        constructive,
        deep: DeepTraces::new(alloc, hasher),
        chain: rest.chain,
        values: rest.values,
    })
}

// What has no task.
#[derive(Drop)]
struct Rest {
    seen: Seen,
    chain: Names,
    values: Store,
}

fn rest_of(alloc: Global, old: &KeptOne) -> Result<Rest, NoMemory>
    ensures seen { IfOk result (λ rest. rest.seen ≡ old.now.seen) }
    ensures chain { IfOk result (λ rest. rest.chain ≡ old.now.chain) }
    ensures first { IfOk result (λ rest. (d : SomeDigest) → first_value rest.values d ≡ first_value old.now.values d) }
    ensures once { IfOk result (λ rest. EachOnce (map digest_of rest.values)) }
{
    let seen = old.seen.copy(alloc)?;
    let chain = old.chain.copy(alloc)?;
    let values = first_values(alloc, &old.values, old.seen.hasher())?;
    Ok(Rest {
        seen,
        chain,
        values,
    })
}
