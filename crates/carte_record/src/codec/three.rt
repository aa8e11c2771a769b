//! Bodies of version 2 whose deep traces name no rules, only the digest of all. They are read without these.
ghost use Rattle.std.specs.Prelude.{◌≡◌, IfOk};
ghost use Rattle.carte_record.specs.Three.{spelled_kind_three, IsDecodedThree, OneBodyThree};
ghost use Rattle.carte_record.specs.ThreeLaws.{kind_three_one, batch_three, IsWholeThree};

use crate::codec::batch::{Front, Kind, of_parts};
use crate::{Batch, DeepTrace, Trace};
use carte_codec::{Spelled, Unread};
use carte_table::Plain;
use carte_value::{Names, NoMemory, Seeded};
use std::alloc::Global;

/// The kind of such a body, spelled as 3.
#[derive(Drop)]
pub(crate) struct KindThree;

impl Spelled for KindThree {
    ghost spelling = { spelled_kind_three };

    ghost fits = { λ _. Unit {0} };

    ghost may = { λ _. Unit {0} };

    fn write(&self, out: &mut Vec<u8>) -> Result<(), NoMemory> {
        out.push(3)?;
        Ok(())
    }

    fn read(_alloc: Global, bytes: &[u8]) -> Result<(KindThree, &[u8]), Unread> {
        match bytes {
            [3, rest @ ..] => Ok((KindThree, rest)),
            _ => Err(Unread::NotThere),
        }
    }

    ghost one_spelling = { kind_three_one };
}

type BackThree = (Plain<Trace>, (Plain<Trace>, (Plain<Trace>, Option<Names>)));

type PartsThree = (KindThree, (Front, BackThree));

impl Batch {
    /// The batch of a body of kind 3, without its deep traces, and none where the bytes are no such body's.
    pub fn decode_three(
        alloc: Global,
        bytes: &[u8],
        hasher: Seeded,
    ) -> Result<Option<Batch>, NoMemory>
        ensures { IsDecodedThree bytes.now result }
    {
        match PartsThree::read(alloc, bytes) {
            Ok((parts, rest)) => whole(alloc, parts, rest, hasher),
            Err(Unread::NotThere) => Ok(None),
            Err(Unread::NoMemory) => Err(NoMemory),
        }
    }
}

/// What was read, where nothing is left.
fn whole(
    alloc: Global,
    parts: PartsThree,
    rest: &[u8],
    hasher: Seeded,
) -> Result<Option<Batch>, NoMemory>
    ensures { IfOk result (IsWholeThree parts rest.now) }
{
    if !rest.is_empty() {
        return Ok(None);
    }
    let batch = without_deep(alloc, parts, hasher)?;
    Ok(Some(batch))
}

/// What was read, with no deep traces.
fn without_deep(alloc: Global, parts: PartsThree, hasher: Seeded) -> Result<Batch, NoMemory>
    ensures { IfOk result (λ batch. batch ≡ batch_three parts) }
{
    let (_, (front, (verifying, (constructive, (_deep, chain))))) = parts;
    let none: Plain<DeepTrace> = Plain::new(alloc);
    of_parts(
        alloc,
        (Kind, (front, (verifying, (constructive, (none, chain))))),
        hasher,
    )
}

/// Bytes are of one batch of this kind at most.
pub fn one_body_three()
    ensures { OneBodyThree }
{}
