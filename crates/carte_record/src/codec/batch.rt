ghost use Rattle.std.specs.Prelude.{◌≡◌, ◌++◌, IfOk, OnOk};
ghost use Rattle.carte_codec.specs.Each.{EachFits};
ghost use Rattle.carte_codec.specs.Spellings.{IsRead};
ghost use Rattle.carte_record.specs.Bodies.{spelled_kind, spelled_front, FitsFront, spelled_back, FitsBack, spelled_batch, FitsBatch, IsUnmarked, IsBody, IsDecoded, IsWhole, OneBody};
ghost use Rattle.carte_record.specs.BodyLaws.{kind_one, batch_of};

use crate::codec::lists::{write_deep, write_links, write_traces, write_values};
use crate::{Batch, DeepTrace, Entry, Seen, Start, Store, Trace};
use carte_codec::{Spelled, Unread};
use carte_table::Plain;
use carte_value::{Link, Names, NoMemory, Seeded, Value};
use std::alloc::Global;

/// The kind of a body that is a batch of version 2 of the state file whose deep traces name rules, spelled as 4.
#[derive(Drop)]
pub(crate) struct Kind;

impl Spelled for Kind {
    ghost spelling = { spelled_kind };

    ghost fits = { λ _. Unit {0} };

    ghost may = { λ _. Unit {0} };

    fn write(&self, out: &mut Vec<u8>) -> Result<(), NoMemory> {
        out.push(4)?;
        Ok(())
    }

    fn read(_alloc: Global, bytes: &[u8]) -> Result<(Kind, &[u8]), Unread> {
        match bytes {
            [4, rest @ ..] => Ok((Kind, rest)),
            _ => Err(Unread::NotThere),
        }
    }

    ghost one_spelling = { kind_one };
}

/// What is spelled before the traces, alike in both kinds of version 2.
pub(crate) type Front = (
    Start,
    (Plain<Value>, (Names, (Plain<Link>, (Plain<Entry>, Names)))),
);

type Back = (
    Plain<Trace>,
    (Plain<Trace>, (Plain<DeepTrace>, Option<Names>)),
);

pub(crate) type Parts = (Kind, (Front, Back));

fn write_front(batch: &Batch, out: &mut Vec<u8>) -> Result<(), NoMemory>
    ensures bytes { OnOk result (out.new.items ≡ out.old.items ++ spelled_front batch.now) }
    ensures fits { OnOk result (EachFits IsUnmarked batch.now.entries → FitsFront batch.now) }
{
    batch.start.write(out)?;
    write_values(&batch.values, out)?;
    batch.gone.write(out)?;
    write_links(&batch.seen, out)?;
    batch.entries.write(out)?;
    batch.stale.write(out)
}

fn write_back(batch: &Batch, out: &mut Vec<u8>) -> Result<(), NoMemory>
    ensures bytes { OnOk result (out.new.items ≡ out.old.items ++ spelled_back batch.now) }
    ensures fits { OnOk result (FitsBack batch.now) }
{
    write_traces(&batch.verifying, out)?;
    write_traces(&batch.constructive, out)?;
    write_deep(&batch.deep, out)?;
    batch.chain.write(out)
}

/// What was read. Values and links get their tables.
pub(crate) fn of_parts(alloc: Global, parts: Parts, hasher: Seeded) -> Result<Batch, NoMemory>
    ensures { IfOk result (λ batch. batch ≡ batch_of parts) }
{
    let (_, (front, back)) = parts;
    let (start, (values, (gone, (seen, (entries, stale))))) = front;
    let (verifying, (constructive, (deep, chain))) = back;
    Ok(Batch {
        start,
        values: Store::with_places(alloc, values.into_items(), hasher)?,
        gone,
        seen: Seen::with_places(alloc, seen.into_items(), hasher)?,
        entries,
        stale,
        verifying,
        constructive,
        deep,
        chain,
    })
}

/// The kind, and the ten parts in their order.
impl Batch {
    fn write(&self, out: &mut Vec<u8>) -> Result<(), NoMemory>
        ensures bytes { OnOk result (out.new.items ≡ out.old.items ++ spelled_batch self.now) }
        ensures fits { OnOk result (EachFits IsUnmarked self.now.entries → FitsBatch self.now) }
    {
        Kind.write(out)?;
        write_front(self, out)?;
        write_back(self, out)
    }

    fn read(alloc: Global, bytes: &[u8], hasher: Seeded) -> Result<(Batch, &[u8]), Unread>
        ensures { IsRead spelled_batch FitsBatch (λ x. (x.0, x.1.now)) bytes.now result }
    {
        match Parts::read(alloc, bytes) {
            Ok((parts, rest)) => {
                let batch = of_parts(alloc, parts, hasher)?;
                Ok((batch, rest))
            }
            Err(unread) => Err(unread),
        }
    }

    /// About how many bytes it is spelled as, where names are short. Room for so many is made at once: if the bytes grew by
    /// doubling, each of their former places would be held beside what is kept. Where there are more, they grow.
    fn about_how_long(&self) -> usize {
        let traces = self.verifying.len() + self.constructive.len() + self.deep.len();
        let entries = self.entries.len() + self.seen.len();
        traces * 160 + entries * 96 + self.values.len() * 16 + 64
    }

    /// The bytes of the batch, as the state file keeps it.
    pub fn encode(&self, alloc: Global) -> Result<Vec<u8>, NoMemory>
        requires { EachFits IsUnmarked self.now.entries }
        ensures { IfOk result (λ bytes. IsBody self.now bytes.items) }
    {
        let mut bytes = Vec::new(alloc);
        let _room = bytes.reserve_exact(self.about_how_long());
        self.write(&mut bytes)?;
        Ok(bytes)
    }

    /// The batch whose bytes these are, and none where they are no batch's.
    pub fn decode(alloc: Global, bytes: &[u8], hasher: Seeded) -> Result<Option<Batch>, NoMemory>
        ensures { IsDecoded bytes.now result }
    {
        match Batch::read(alloc, bytes, hasher) {
            Ok((batch, rest)) => Ok(whole(batch, rest)),
            Err(Unread::NotThere) => Ok(None),
            Err(Unread::NoMemory) => Err(NoMemory),
        }
    }
}

/// What was read, where nothing is left.
fn whole(batch: Batch, rest: &[u8]) -> Option<Batch>
    ensures { IsWhole batch rest.now result }
{
    if rest.is_empty() { Some(batch) } else { None }
}

/// Bytes are of one batch at most.
pub fn one_body()
    ensures { OneBody }
{}
