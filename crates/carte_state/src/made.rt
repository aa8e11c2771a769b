//! What bodies make, one after another.
ghost use Rattle.std.specs.Prelude.{◌≡◌, ◌∷◌, [], List, IfOk};
ghost use Rattle.carte_journal.specs.Frames.{BodyAt};
ghost use Rattle.carte_record.specs.Folds.{apply};
ghost use Rattle.carte_record.specs.Kept.{kept_view};
ghost use Rattle.carte_record_one.specs.Kept.{SomeKeptOne, kept_one_view};
ghost use Rattle.carte_state.specs.Parts.{AreFound, Finds, IsFoundIn, IsNext, ReadsTo, is_behind_four, made_at, made_view};
ghost use Rattle.carte_state.specs.Versions.{Fours, Ones, Threes};
ghost use Rattle.carte_state.specs.declared.any.AnyBatch.TheVariants.{One as AsOne, Three as AsThree, Four as AsFour};

use crate::LoadFault;
use crate::any::AnyBatch;
use crate::parts::Found;
use crate::room::{Sizes, widen_behind};
use carte_record::{Batch, Kept, Start};
use carte_record_one::{BatchOne, KeptOne};
use carte_value::{NoMemory, Seeded};
use std::alloc::Global;
use std::mem::replace;

/// What the bodies so far have made, by their kinds.
#[derive(Drop)]
pub(crate) enum Made {
    /// There was none yet.
    Nothing,
    Old(KeptOne),
    /// There was one of version 2, and none of kind 4.
    Before(Kept),
    Now(Kept),
}

impl Made {
    /// Puts one body's batch in, where there is one and it may come there. Where it is refused, nothing is made any more.
    pub(crate) fn take(
        &mut self,
        alloc: Global,
        found: Found,
        hasher: Seeded,
    ) -> Result<(), LoadFault>
        ensures { (body : BodyAt) → IsFoundIn body found → ReadsTo (λ _. made_view self.new) (made_view self.old) (body ∷ []) result }
    {
        let before = replace(self, Made::Nothing);
        *self = before.behind(alloc, found, hasher)?;
        Ok(())
    }

    /// The same, and where it is of kind 4 it makes room for so many times as much behind it.
    pub(crate) fn take_before(
        &mut self,
        alloc: Global,
        found: Found,
        times: usize,
        hasher: Seeded,
    ) -> Result<(), LoadFault>
        ensures { (body : BodyAt) → IsFoundIn body found → ReadsTo (λ _. made_view self.new) (made_view self.old) (body ∷ []) result }
    {
        let before = self.sizes();
        let brought = found.sizes();
        let taken = self.take(alloc, found, hasher);
        self.widen(before, brought, brought.times(times));
        taken
    }

    fn sizes(&self) -> Sizes {
        match self {
            Made::Now(kept) => Sizes::of_kept(kept),
            _ => Sizes::none(),
        }
    }

    fn widen(&mut self, before: Sizes, brought: Sizes, more: Sizes)
        ensures { made_view self.new ≡ made_view self.old }
    {
        match self {
            Made::Now(kept) => widen_behind(kept, before, brought, more),
            _ => {}
        }
    }

    /// Puts the batches of many bodies in, one after another.
    pub(crate) fn take_all(
        &mut self,
        alloc: Global,
        founds: Vec<Found>,
        hasher: Seeded,
    ) -> Result<(), LoadFault>
        ensures { (bodies : List BodyAt) → AreFound bodies founds.items → ReadsTo (λ _. made_view self.new) (made_view self.old) bodies result }
    {
        for found in founds {
            self.take(alloc, found, hasher)?;
        }
        Ok(())
    }

    fn behind(self, alloc: Global, found: Found, hasher: Seeded) -> Result<Made, LoadFault>
        ensures { (body : BodyAt) → IsFoundIn body found → ReadsTo made_view (made_view self) (body ∷ []) result }
    {
        let Found { offset, batch } = found;
        match batch {
            Some(batch) => made_at(offset, self.with_any(alloc, batch, hasher)),
            None => Err(LoadFault::BadState(offset)),
        }
    }

    fn with_any(
        self,
        alloc: Global,
        batch: AnyBatch,
        hasher: Seeded,
    ) -> Result<Option<Made>, NoMemory>
        ensures { IsNext (made_view self) batch result }
    {
        match batch {
            AnyBatch::One(batch) => self.with_one(alloc, batch, hasher),
            AnyBatch::Three(batch) => self.with_three(alloc, batch, hasher),
            AnyBatch::Four(batch) => self.with_four(alloc, batch, hasher),
        }
    }

    fn with_one(
        self,
        alloc: Global,
        batch: BatchOne,
        hasher: Seeded,
    ) -> Result<Option<Made>, NoMemory>
        ensures { IsNext (made_view self) (AsOne batch) result }
    {
        match self {
            Made::Nothing => old_with(KeptOne::empty(alloc, hasher), batch),
            Made::Old(kept) => old_with(kept, batch),
            Made::Before(_) => Ok(None),
            Made::Now(_) => Ok(None),
        }
    }

    fn with_three(
        self,
        alloc: Global,
        batch: Batch,
        hasher: Seeded,
    ) -> Result<Option<Made>, NoMemory>
        ensures { IsNext (made_view self) (AsThree batch) result }
    {
        if self.is_now() {
            return Ok(None);
        }
        match self.found_by(alloc, &batch, hasher) {
            Some(kept) => before_with(kept, batch),
            None => Ok(None),
        }
    }

    fn with_four(
        self,
        alloc: Global,
        batch: Batch,
        hasher: Seeded,
    ) -> Result<Option<Made>, NoMemory>
        ensures { IsNext (made_view self) (AsFour batch) result }
    {
        match self.found_by(alloc, &batch, hasher) {
            Some(kept) => now_with(kept, batch),
            None => Ok(None),
        }
    }

    fn is_now(&self) -> bool
        ensures { result ≡ is_behind_four (made_view self.now) }
    {
        match self {
            Made::Nothing => false,
            Made::Old(_) => false,
            Made::Before(_) => false,
            Made::Now(_) => true,
        }
    }

    // What a batch of version 2 finds, where it may begin there.
    fn found_by(self, alloc: Global, batch: &Batch, hasher: Seeded) -> Option<Kept>
        ensures { Finds (made_view self) batch.now result }
    {
        match self {
            Made::Nothing => Some(Kept::empty(alloc, hasher)),
            Made::Old(_) => found_behind_old(alloc, batch, hasher),
            Made::Before(kept) => Some(kept),
            Made::Now(kept) => Some(kept),
        }
    }
}

// A batch that may not come there is bad at its offset.
fn made_at(offset: u64, next: Result<Option<Made>, NoMemory>) -> Result<Made, LoadFault>
    ensures { result ≡ made_at offset next }
{
    match next {
        Ok(Some(made)) => Ok(made),
        Ok(None) => Err(LoadFault::BadState(offset)),
        Err(_) => Err(LoadFault::NoMemory),
    }
}

fn old_with(kept: KeptOne, batch: BatchOne) -> Result<Option<Made>, NoMemory>
    ensures { IsNext (Ones (kept_one_view kept)) (AsOne batch) result }
{
    match kept.with(batch) {
        Ok(kept) => Ok(Some(Made::Old(kept))),
        Err(refused) => Err(refused),
    }
}

fn before_with(kept: Kept, batch: Batch) -> Result<Option<Made>, NoMemory>
    ensures { IsNext (Threes (kept_view kept)) (AsThree batch) result }
{
    match kept_with(kept, batch) {
        Ok(kept) => Ok(Some(Made::Before(kept))),
        Err(refused) => Err(refused),
    }
}

fn now_with(kept: Kept, batch: Batch) -> Result<Option<Made>, NoMemory>
    ensures { IsNext (Fours (kept_view kept)) (AsFour batch) result }
{
    match kept_with(kept, batch) {
        Ok(kept) => Ok(Some(Made::Now(kept))),
        Err(refused) => Err(refused),
    }
}

fn kept_with(kept: Kept, batch: Batch) -> Result<Kept, NoMemory>
    ensures { IfOk result (λ new. kept_view new ≡ apply batch (kept_view kept)) }
{
    let mut kept = kept;
    kept.absorb(batch)?;
    Ok(kept)
}

// Behind bodies of version 1, whatever they made.
fn found_behind_old(alloc: Global, batch: &Batch, hasher: Seeded) -> Option<Kept>
    ensures { (K : SomeKeptOne) → Finds (Ones K) batch.now result }
{
    match batch.start {
        Start::GoOn => None,
        Start::Cleared => Some(Kept::empty(alloc, hasher)),
    }
}
