// The values that are named.
ghost use Rattle.std.specs.Prelude.{◌≡◌, ◌||◌, Bool, List, ℕ, IfOk, OnOk, false};
ghost use Rattle.carte_table.specs.Lookups.{digest_eq};
ghost use Rattle.carte_value.specs.declared.digest.Digest.{Digest as SomeDigest};
ghost use Rattle.carte_trim.specs.Lists.{HasThose, in_batch, in_those};

use carte_record::{Batch, DeepTrace, Entry, Store, Trace};
use carte_value::{Digest, NoMemory, Seeded};
use std::alloc::Global;

/// What names a value by its digest.
pub(crate) trait Naming {
    ghost digest_of: { Self → SomeDigest };

    fn digest(&self) -> Digest
        ensures { result ≡ digest_of self.now };
}

impl Naming for Entry {
    ghost digest_of = { λ e. e.result };

    fn digest(&self) -> Digest {
        self.result
    }
}

impl Naming for Trace {
    ghost digest_of = { λ t. t.result };

    fn digest(&self) -> Digest {
        self.result
    }
}

impl Naming for DeepTrace {
    ghost digest_of = { λ t. t.result };

    fn digest(&self) -> Digest {
        self.result
    }
}

/// The values of a batch that its entries and traces name, each once.
pub(crate) fn named(alloc: Global, batch: &Batch, hasher: Seeded) -> Result<Store, NoMemory>
    ensures { IfOk result (λ list. HasThose batch.now.values (in_batch batch.now) list) }
{
    let all = &batch.values;
    let mut list = Store::new(alloc, hasher);
    put_each(alloc, all, batch.entries.as_slice(), &mut list)?;
    put_each(alloc, all, batch.verifying.as_slice(), &mut list)?;
    put_each(alloc, all, batch.constructive.as_slice(), &mut list)?;
    put_each(alloc, all, batch.deep.as_slice(), &mut list)?;
    Ok(list)
}

// Puts the values that these name into the list, where they aren't there yet.
fn put_each<T: Naming>(
    alloc: Global,
    all: &Store,
    items: &[T],
    list: &mut Store,
) -> Result<(), NoMemory>
    ensures { OnOk result ((before : SomeDigest → Bool) → HasThose all.now before list.old → HasThose all.now (λ d. before d || in_those T.digest_of items.now d) list.new) }
{
    for item in items {
        put(alloc, all, &item.digest(), list)?;
    }
    Ok(())
}

// Puts the value of a digest into the list, where there is one and it isn't there yet.
fn put(alloc: Global, all: &Store, digest: &Digest, list: &mut Store) -> Result<(), NoMemory>
    ensures { OnOk result ((before : SomeDigest → Bool) → HasThose all.now before list.old → HasThose all.now (λ d. before d || digest_eq d digest.now) list.new) }
{
    if list.find(digest).is_some() {
        return Ok(());
    }
    if let Some(value) = all.find(digest) {
        list.push(value.copy(alloc)?)?;
    }
    Ok(())
}
