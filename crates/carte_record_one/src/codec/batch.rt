ghost use Rattle.std.specs.Prelude.{◌≡◌, IfOk};
ghost use Rattle.carte_codec.specs.Spellings.{IsRead};
ghost use Rattle.carte_record_one.specs.Bodies.{spelled_kind, spelled_batch, FitsBatch, IsDecodedOne, IsWholeOne, OneBodyOne};
ghost use Rattle.carte_record_one.specs.BodyLaws.{kind_one, batch_of};

use crate::{BatchOne, EntriesOne, EntryOne, StartOne, TracesOne};
use carte_codec::{Spelled, Unread};
use carte_table::{Plain, Seen, Store};
use carte_value::{Link, Names, NoMemory, Seeded, Value};
use std::alloc::Global;

/// The kind of a body that is a batch of version 1 of the state file, spelled as 1.
#[derive(Drop)]
pub(crate) struct Kind;

impl Spelled for Kind {
    ghost spelling = { spelled_kind };

    ghost fits = { λ _. Unit {0} };

    ghost may = { λ _. Unit {0} };

    fn write(&self, out: &mut Vec<u8>) -> Result<(), NoMemory> {
        out.push(1)?;
        Ok(())
    }

    fn read(_alloc: Global, bytes: &[u8]) -> Result<(Kind, &[u8]), Unread> {
        match bytes {
            [1, rest @ ..] => Ok((Kind, rest)),
            _ => Err(Unread::NotThere),
        }
    }

    ghost one_spelling = { kind_one };
}

type Front = (
    StartOne,
    (Plain<Value>, (Plain<Link>, (Names, Plain<EntryOne>))),
);

type Back = (TracesOne, (TracesOne, (TracesOne, Option<Names>)));

type Parts = (Kind, (Front, Back));

/// What was read, with its tables.
fn of_parts(alloc: Global, parts: Parts, hasher: Seeded) -> Result<BatchOne, NoMemory>
    ensures { IfOk result (λ batch. batch ≡ batch_of parts) }
{
    let (_, (front, back)) = parts;
    let (start, (values, (seen, (stale, entries)))) = front;
    let (verifying, (constructive, (deep, chain))) = back;
    Ok(BatchOne {
        start,
        values: Store::with_places(alloc, values.into_items(), hasher)?,
        seen: Seen::with_places(alloc, seen.into_items(), hasher)?,
        stale,
        entries: EntriesOne::with_places(alloc, entries.into_items(), hasher)?,
        verifying,
        constructive,
        deep,
        chain,
    })
}

impl BatchOne {
    fn read(alloc: Global, bytes: &[u8], hasher: Seeded) -> Result<(BatchOne, &[u8]), Unread>
        ensures { IsRead spelled_batch FitsBatch (λ x. (x.0, x.1.now)) bytes.now result }
    {
        match Parts::read(alloc, bytes) {
            Ok((parts, rest)) => {
                let batch = of_parts(alloc, parts, hasher)?;
                Ok((batch, rest))
            }
            Err(unread) => Err(unread),
        }
    }

    /// The batch whose bytes these are, and none where they are no batch's of version 1.
    pub fn decode(alloc: Global, bytes: &[u8], hasher: Seeded) -> Result<Option<BatchOne>, NoMemory>
        ensures { IsDecodedOne bytes.now result }
    {
        match BatchOne::read(alloc, bytes, hasher) {
            Ok((batch, rest)) => Ok(whole(batch, rest)),
            Err(Unread::NotThere) => Ok(None),
            Err(Unread::NoMemory) => Err(NoMemory),
        }
    }
}

/// What was read, where nothing is left.
fn whole(batch: BatchOne, rest: &[u8]) -> Option<BatchOne>
    ensures { IsWholeOne batch rest.now result }
{
    if rest.is_empty() { Some(batch) } else { None }
}

/// Bytes are of one batch of version 1 at most.
pub fn one_body_one()
    ensures { OneBodyOne }
{}
