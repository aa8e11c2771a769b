//! Lengths of the spellings of what is kept, without writing them.
ghost use Rattle.std.specs.Prelude.{◌≡◌, length, IfSome};
ghost use Rattle.carte_codec.specs.Parts.{spelled_option};
ghost use Rattle.carte_record.specs.Bodies.{spelled_back, spelled_batch, spelled_deep, spelled_entry, spelled_front, spelled_names, spelled_start, spelled_trace};

use crate::{Batch, DeepTrace, Entry, Start, Trace};
use carte_codec::{Measured, list_length};
use carte_value::Names;

impl Measured for Start {
    ghost spelled = { spelled_start };

    fn length(&self) -> Option<u64> {
        Some(1)
    }
}

impl Measured for Entry {
    ghost spelled = { spelled_entry };

    fn length(&self) -> Option<u64> {
        self.key
            .length()?
            .checked_add(self.task.length()?)?
            .checked_add(self.result.length()?)?
            .checked_add(1)?
            .checked_add(self.needs.length()?)
    }
}

impl Measured for Trace {
    ghost spelled = { spelled_trace };

    fn length(&self) -> Option<u64> {
        self.key
            .length()?
            .checked_add(self.task.length()?)?
            .checked_add(list_length(self.links.as_slice())?)?
            .checked_add(self.result.length()?)
    }
}

impl Measured for DeepTrace {
    ghost spelled = { spelled_deep };

    fn length(&self) -> Option<u64> {
        self.key
            .length()?
            .checked_add(list_length(self.tasks.as_slice())?)?
            .checked_add(list_length(self.links.as_slice())?)?
            .checked_add(self.result.length()?)
    }
}

impl Measured for Batch {
    ghost spelled = { spelled_batch };

    fn length(&self) -> Option<u64> {
        front_of(self)?.checked_add(back_of(self)?)?.checked_add(1)
    }
}

fn front_of(batch: &Batch) -> Option<u64>
    ensures { IfSome result (λ n. n ≡ length (spelled_front batch.now)) }
{
    batch
        .start
        .length()?
        .checked_add(list_length(batch.values.as_slice())?)?
        .checked_add(batch.gone.length()?)?
        .checked_add(list_length(batch.seen.as_slice())?)?
        .checked_add(list_length(batch.entries.as_slice())?)?
        .checked_add(batch.stale.length()?)
}

fn back_of(batch: &Batch) -> Option<u64>
    ensures { IfSome result (λ n. n ≡ length (spelled_back batch.now)) }
{
    list_length(batch.verifying.as_slice())?
        .checked_add(list_length(batch.constructive.as_slice())?)?
        .checked_add(list_length(batch.deep.as_slice())?)?
        .checked_add(chain_of(&batch.chain)?)
}

fn chain_of(chain: &Option<Names>) -> Option<u64>
    ensures { IfSome result (λ n. n ≡ length (spelled_option spelled_names chain.now)) }
{
    match chain {
        Some(chain) => chain.length()?.checked_add(1),
        None => Some(1),
    }
}
