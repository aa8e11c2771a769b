//! A batch as bytes.

ghost use Rattle.std.specs.Prelude.{IfOk, IfSome};
ghost use Rattle.carte_codec.specs.Each.{EachFits};
ghost use Rattle.carte_record.specs.Bodies.{IsUnmarked};

use carte_record::Batch;
use carte_value::{Digest, NoMemory, Seeded, Value};
use std::alloc::Global;
use std::test::Fail;

// The body that a build of b2 makes, with a1 = 10, a2 = 20, b1 = "a1+a2" and b2 = "b1*2" and nothing kept before:
// kind, start, values, names that are dropped, seen, entries with their tasks, stale, three lists of traces, chain. By
// `tests/batches.py small`, which spells it from the format with digests of Python's hashlib.
const PARTS: [&[u8]; 11] = [
    b"\x04",
    b"\0",
    b"\0\0\0\x02\x01\0\0\0\0\0\0\0\x1e\x01\0\0\0\0\0\0\0<",
    b"\0\0\0\0",
    b"\0\0\0\x02\x02a1J\xdc\xa0\x10?{\xb3\xdc\xd1cHKz~>L\xb4\xcb\xda\x07\x06\xc6\xb0\xaf\x01\xaf\xd0O\x9b\xde/\xfa\x02a2\xb2\x0e\xca\x9eTX\x04[-C\xe2\xbb\xc7\x17\xd0\x110\xb9p]\xc0,\xb8\x98\x5c\x02 \xd0^)\x10c",
    b"\0\0\0\x02\x02b1\x0c^\xf7LC\x83\x95u0<\xcc\x0e\xd3\x9d@\xb2\x8f\xf7\xb0\x96\xf70L\xaa_\xb5\xa0\x0e\xef\xcc\xff\xca7@\xe6\x7f\x8dy\xfdu\x82z&r\xf1\x83\xbc]\x82a\xba\xbb\xb4\x10\xfda\xc3>U\x1d \xca#D\0\0\0\0\x02\x02a1\x02a2\x02b2cGf\xfc'\xe9#\xad\x99\xf8\xf9Pn\x97\xbbR\xb4\x0a\x8a$\xa2{~\x10\xca\x16\x98;\x98\xc1\xe5A\xb1#\xd9\x83`\xd2\xb8\xce\xf4w\x915l\xf4\x97f\x5c>\x14[\x18\xef\x86D\xfc\x80.\x04\xebM\xf4\x87\0\0\0\0\x01\x02b1",
    b"\0\0\0\0",
    b"\0\0\0\x02\x02b1\x0c^\xf7LC\x83\x95u0<\xcc\x0e\xd3\x9d@\xb2\x8f\xf7\xb0\x96\xf70L\xaa_\xb5\xa0\x0e\xef\xcc\xff\xca\0\0\0\x02\x02a1J\xdc\xa0\x10?{\xb3\xdc\xd1cHKz~>L\xb4\xcb\xda\x07\x06\xc6\xb0\xaf\x01\xaf\xd0O\x9b\xde/\xfa\x02a2\xb2\x0e\xca\x9eTX\x04[-C\xe2\xbb\xc7\x17\xd0\x110\xb9p]\xc0,\xb8\x98\x5c\x02 \xd0^)\x10c7@\xe6\x7f\x8dy\xfdu\x82z&r\xf1\x83\xbc]\x82a\xba\xbb\xb4\x10\xfda\xc3>U\x1d \xca#D\x02b2cGf\xfc'\xe9#\xad\x99\xf8\xf9Pn\x97\xbbR\xb4\x0a\x8a$\xa2{~\x10\xca\x16\x98;\x98\xc1\xe5A\0\0\0\x01\x02b17@\xe6\x7f\x8dy\xfdu\x82z&r\xf1\x83\xbc]\x82a\xba\xbb\xb4\x10\xfda\xc3>U\x1d \xca#D\xb1#\xd9\x83`\xd2\xb8\xce\xf4w\x915l\xf4\x97f\x5c>\x14[\x18\xef\x86D\xfc\x80.\x04\xebM\xf4\x87",
    b"\0\0\0\0",
    b"\0\0\0\0",
    b"\0",
];

pub(crate) fn small(alloc: Global) -> Result<Vec<u8>, NoMemory> {
    let mut body = Vec::new(alloc);
    for part in PARTS {
        body.extend_from_slice(part)?;
    }
    Ok(body)
}

/// The batch whose bytes these are. It is boxed, so that one call drops it.
fn decoded(alloc: Global, body: &[u8]) -> Result<Option<Box<Batch>>, NoMemory>
    ensures { IfOk result (λ found. IfSome found (λ batch. EachFits IsUnmarked batch.value.entries)) }
{
    match Batch::decode(alloc, body, Seeded::of(7))? {
        Some(batch) => Ok(Some(Box::new(alloc, batch)?)),
        None => Ok(None),
    }
}

/// What the bytes are written as where they are a batch, and else nothing.
fn again(alloc: Global, body: &[u8]) -> Result<Vec<u8>, NoMemory> {
    match decoded(alloc, body)? {
        Some(batch) => batch.encode(alloc),
        None => Ok(Vec::new(alloc)),
    }
}

/// It is written again as it was.
fn is_read(alloc: Global) -> Result<bool, NoMemory> {
    let body = small(alloc)?;
    Ok(again(alloc, body.as_slice())?.as_slice() == body.as_slice())
}

fn number(value: i64) -> Digest {
    Value::Number(value).digest()
}

/// How many values, inputs, stale keys, entries and traces there are.
fn lengths(batch: &Batch) -> [usize; 7] {
    [
        batch.values.len(),
        batch.seen.len(),
        batch.stale.len(),
        batch.entries.len(),
        batch.verifying.len(),
        batch.constructive.len(),
        batch.deep.len(),
    ]
}

fn has_a2(batch: &Batch) -> bool {
    match batch.seen.get(1) {
        Some(link) => link.name.text() == "a2" && link.digest == number(20),
        None => false,
    }
}

fn has_b2(batch: &Batch) -> bool {
    match batch.entries.as_slice().get(1) {
        Some(entry) => {
            entry.key.text() == "b2" && entry.result == number(60) && entry.needs.len() == 1
        }
        None => false,
    }
}

fn has_b1(batch: &Batch) -> bool {
    match batch.verifying.as_slice().get(0) {
        Some(trace) => {
            trace.key.text() == "b1" && trace.result == number(30) && trace.links.len() == 2
        }
        None => false,
    }
}

/// What the batch of the small example has.
fn found(alloc: Global) -> Result<[bool; 5], NoMemory> {
    let body = small(alloc)?;
    match decoded(alloc, body.as_slice())? {
        Some(batch) => Ok(told(&batch)),
        None => Ok([false; 5]),
    }
}

fn told(batch: &Batch) -> [bool; 5] {
    [
        lengths(batch) == [2, 2, 0, 2, 2, 0, 0],
        has_a2(batch),
        has_b2(batch),
        has_b1(batch),
        batch.chain.is_none(),
    ]
}

#[test]
fn the_small_example(rt: HostRuntime) -> Result<(), Fail> {
    assert!(&rt; is_read(rt.alloc())?);
    assert!(&rt; found(rt.alloc())? == [true; 5]);
    Ok(())
}
