//! Bodies of any kind.
ghost use Rattle.std.specs.Prelude.{◌≡◌, ◌==◌};
ghost use Rattle.carte_state.specs.Versions.{IsDecodedAny, as_any, first_byte};
ghost use Rattle.carte_state.specs.declared.any.AnyBatch.TheVariants.{One as AsOne, Three as AsThree, Four as AsFour};

use carte_record::Batch;
use carte_record_one::BatchOne;
use carte_value::{NoMemory, Seeded};
use std::alloc::Global;

/// The kind of a body of version 1.
const KIND_ONE: u8 = 1;

/// The kind of a body of version 2 whose deep traces name no rules.
const KIND_THREE: u8 = 3;

/// A batch, by the kind of its body.
#[derive(Drop)]
pub enum AnyBatch {
    /// Of version 1.
    One(BatchOne),
    /// Of version 2, without the deep traces of its body, which name no rules.
    Three(Batch),
    /// Of version 2, as it is written today.
    Four(Batch),
}

/// The batch of any kind whose bytes these are, and none where they are no batch's. The first byte tells which kind it
/// is, so that bytes of one are never tried as another's.
pub fn decode_any(alloc: Global, bytes: &[u8], hasher: Seeded) -> Result<Option<AnyBatch>, NoMemory>
    ensures { IsDecodedAny bytes.now result }
{
    if is_one(bytes) {
        return read_one(alloc, bytes, hasher);
    }
    if is_three(bytes) {
        return read_three(alloc, bytes, hasher);
    }
    read_four(alloc, bytes, hasher)
}

fn is_one(bytes: &[u8]) -> bool
    ensures { result ≡ (first_byte bytes.now == 1) }
{
    first_byte(bytes) == KIND_ONE
}

fn is_three(bytes: &[u8]) -> bool
    ensures { result ≡ (first_byte bytes.now == 3) }
{
    first_byte(bytes) == KIND_THREE
}

fn first_byte(bytes: &[u8]) -> u8
    ensures { result ≡ first_byte bytes.now }
{
    match bytes {
        [first, ..] => *first,
        [] => 0,
    }
}

fn read_one(alloc: Global, bytes: &[u8], hasher: Seeded) -> Result<Option<AnyBatch>, NoMemory>
    ensures { first_byte bytes.now ≡ 1 → IsDecodedAny bytes.now result }
{
    of_one(BatchOne::decode(alloc, bytes, hasher))
}

fn read_three(alloc: Global, bytes: &[u8], hasher: Seeded) -> Result<Option<AnyBatch>, NoMemory>
    ensures { first_byte bytes.now ≡ 3 → IsDecodedAny bytes.now result }
{
    of_three(Batch::decode_three(alloc, bytes, hasher))
}

fn read_four(alloc: Global, bytes: &[u8], hasher: Seeded) -> Result<Option<AnyBatch>, NoMemory>
    ensures { ¬ (first_byte bytes.now ≡ 1) → ¬ (first_byte bytes.now ≡ 3) → IsDecodedAny bytes.now result }
{
    of_four(Batch::decode(alloc, bytes, hasher))
}

fn of_one(decoded: Result<Option<BatchOne>, NoMemory>) -> Result<Option<AnyBatch>, NoMemory>
    ensures { result ≡ as_any AsOne decoded }
{
    match decoded {
        Ok(Some(batch)) => Ok(Some(AnyBatch::One(batch))),
        Ok(None) => Ok(None),
        Err(refused) => Err(refused),
    }
}

fn of_three(decoded: Result<Option<Batch>, NoMemory>) -> Result<Option<AnyBatch>, NoMemory>
    ensures { result ≡ as_any AsThree decoded }
{
    match decoded {
        Ok(Some(batch)) => Ok(Some(AnyBatch::Three(batch))),
        Ok(None) => Ok(None),
        Err(refused) => Err(refused),
    }
}

fn of_four(decoded: Result<Option<Batch>, NoMemory>) -> Result<Option<AnyBatch>, NoMemory>
    ensures { result ≡ as_any AsFour decoded }
{
    match decoded {
        Ok(Some(batch)) => Ok(Some(AnyBatch::Four(batch))),
        Ok(None) => Ok(None),
        Err(refused) => Err(refused),
    }
}
