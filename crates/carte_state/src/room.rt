//! Room for what batches bring, made at once where it can be told how much that is. It is speed and memory alone: a list
//! that grows as items come is copied and its table made anew again and again, and leaves holes as large as it was.
ghost use Rattle.std.specs.Prelude.{◌≡◌, OnOk};
ghost use Rattle.carte_record.specs.Folds.{apply};
ghost use Rattle.carte_record.specs.Kept.{kept_view};

use carte_record::{Batch, Kept};
use carte_value::NoMemory;

/// How long those lists are that are typically large.
#[derive(Clone, Copy)]
pub(crate) struct Sizes {
    entries: usize,
    values: usize,
    verifying: usize,
    constructive: usize,
    deep: usize,
}

impl Sizes {
    pub(crate) fn none() -> Sizes {
        Sizes {
            entries: 0,
            values: 0,
            verifying: 0,
            constructive: 0,
            deep: 0,
        }
    }

    /// What batches bring, one with another.
    pub(crate) fn of_all(batches: &[Batch]) -> Sizes {
        let mut all = Sizes::none();
        for batch in batches {
            all = all.with(Sizes::of(batch));
        }
        all
    }

    pub(crate) fn of(batch: &Batch) -> Sizes {
        Sizes {
            entries: batch.entries.len(),
            values: batch.values.len(),
            verifying: batch.verifying.len(),
            constructive: batch.constructive.len(),
            deep: batch.deep.len(),
        }
    }

    pub(crate) fn of_kept(kept: &Kept) -> Sizes {
        Sizes {
            entries: kept.entries.len(),
            values: kept.values.len(),
            verifying: kept.verifying.len(),
            constructive: kept.constructive.len(),
            deep: kept.deep.len(),
        }
    }

    fn with(self, more: Sizes) -> Sizes {
        Sizes {
            entries: self.entries.saturating_add(more.entries),
            values: self.values.saturating_add(more.values),
            verifying: self.verifying.saturating_add(more.verifying),
            constructive: self.constructive.saturating_add(more.constructive),
            deep: self.deep.saturating_add(more.deep),
        }
    }

    fn without(self, less: Sizes) -> Sizes {
        Sizes {
            entries: self.entries.saturating_sub(less.entries),
            values: self.values.saturating_sub(less.values),
            verifying: self.verifying.saturating_sub(less.verifying),
            constructive: self.constructive.saturating_sub(less.constructive),
            deep: self.deep.saturating_sub(less.deep),
        }
    }

    /// So many times as much.
    pub(crate) fn times(self, number: usize) -> Sizes {
        Sizes {
            entries: self.entries.saturating_mul(number),
            values: self.values.saturating_mul(number),
            verifying: self.verifying.saturating_mul(number),
            constructive: self.constructive.saturating_mul(number),
            deep: self.deep.saturating_mul(number),
        }
    }
}

/// Room for so much more, where the lists are short beside it.
pub(crate) fn widen(kept: &mut Kept, more: Sizes)
    ensures { kept.new ≡ kept.old }
{
    kept.entries.widen(more.entries);
    kept.values.widen(more.values);
    kept.verifying.widen(more.verifying);
    kept.constructive.widen(more.constructive);
    kept.deep.widen(more.deep);
}

/// The same behind a batch that brought so much. Of entries and values, which may come again and again, only where there
/// were some before and all of the batch's were new.
pub(crate) fn widen_behind(kept: &mut Kept, before: Sizes, brought: Sizes, more: Sizes)
    ensures { kept.new ≡ kept.old }
{
    let all_new = before.with(brought);
    let now = Sizes::of_kept(kept);
    let room = Sizes {
        entries: if_new(before.entries, all_new.entries, now.entries, more.entries),
        values: if_new(before.values, all_new.values, now.values, more.values),
        ..more
    };
    widen(kept, room);
}

fn if_new(before: usize, all_new: usize, now: usize, more: usize) -> usize {
    if before > 0 && now == all_new {
        more
    } else {
        0
    }
}

/// Takes in what a batch brings, and makes room for what the batches behind it bring: `coming` counts that of them all
/// before, and then of those alone.
pub(crate) fn put_in(kept: &mut Kept, batch: Batch, coming: &mut Sizes) -> Result<(), NoMemory>
    ensures { OnOk result (kept_view kept.new ≡ apply batch (kept_view kept.old)) }
{
    let before = Sizes::of_kept(kept);
    let brought = Sizes::of(&batch);
    *coming = coming.without(brought);
    kept.absorb(batch)?;
    widen_behind(kept, before, brought, *coming);
    Ok(())
}
