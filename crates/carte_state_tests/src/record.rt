//! Look-ups in what is kept, and a batch as bytes.

pub(crate) mod bytes;

use carte_record::{Seen, Store, Trace, Traces};
use carte_value::{Digest, Link, Links, Name, NoMemory, Seeded, SharedLinks, Value};
use std::alloc::Global;
use std::test::Fail;

fn number(value: i64) -> Digest {
    Value::Number(value).digest()
}

/// The inputs a, b and a again were 1, 2 and 3.
const INPUTS: [(&str, i64); 3] = [("a", 1), ("b", 2), ("a", 3)];

// Lists are boxed here, so that one call drops each.
fn seen(alloc: Global) -> Result<Box<Seen>, Fail> {
    let mut seen = Box::new(alloc, Seen::new(alloc, Seeded::of(7)))?;
    for (text, value) in INPUTS {
        see(alloc, &mut seen, text, value)?;
    }
    Ok(Box::new(alloc, seen.copy(alloc)?)?)
}

fn see(alloc: Global, seen: &mut Seen, text: &str, value: i64) -> Result<(), Fail> {
    let name = Name::rule(alloc, text)?;
    let digest = number(value);
    Ok(seen.push(Link { name, digest })?)
}

fn found(alloc: Global, text: &str) -> Result<Option<Digest>, Fail> {
    let seen = seen(alloc)?;
    found_in(alloc, &seen, text)
}

fn found_in(alloc: Global, seen: &Seen, text: &str) -> Result<Option<Digest>, Fail> {
    let name = Name::rule(alloc, text)?;
    Ok(seen.find(&name).copied())
}

/// Puts a value with its digest.
fn put(store: &mut Store, value: Value) -> Result<(), NoMemory> {
    let digest = value.digest();
    store.push_with(value, digest)
}

/// Nothing and 7.
fn store(alloc: Global) -> Result<Store, NoMemory> {
    let mut store = Store::new(alloc, Seeded::of(7));
    store.push(Value::Empty)?;
    put(&mut store, Value::Number(7))?;
    store.copy(alloc)
}

/// Whether it is there, and the digest at the place.
fn stored(alloc: Global, digest: &Digest, at: usize) -> Result<(bool, Option<Digest>), NoMemory> {
    let store = store(alloc)?;
    Ok((store.find(digest).is_some(), store.digest(at).copied()))
}

fn is_found(alloc: Global, text: &str, want: Option<Digest>) -> Result<bool, Fail> {
    Ok(found(alloc, text)? == want)
}

fn is_stored(
    alloc: Global,
    digest: &Digest,
    at: usize,
    want: (bool, Option<Digest>),
) -> Result<bool, Fail> {
    Ok(stored(alloc, digest, at)? == want)
}

#[test]
fn lists_find_the_first(rt: HostRuntime) -> Result<(), Fail> {
    let alloc = rt.alloc();
    assert!(&rt; is_found(alloc, "a", Some(number(1)))?);
    assert!(&rt; is_found(alloc, "c", None)?);
    assert!(&rt; is_stored(alloc, &number(7), 1, (true, Some(number(7))))?);
    assert!(&rt; is_stored(alloc, &number(8), 2, (false, None))?);
    Ok(())
}

/// Traces of a, b, a and a.
fn traces(alloc: Global) -> Result<Box<Traces>, Fail> {
    let mut traces = Box::new(alloc, Traces::new(alloc, Seeded::of(7)))?;
    for key in ["a", "b", "a", "a"] {
        traces.push(trace(alloc, key)?)?;
    }
    Ok(Box::new(alloc, traces.copy(alloc)?)?)
}

fn trace(alloc: Global, key: &str) -> Result<Trace, Fail> {
    let links = SharedLinks::of(alloc, Links::new(alloc))?;
    let key = Name::rule(alloc, key)?;
    Ok(Trace {
        key,
        task: number(0),
        links,
        result: number(1),
    })
}

fn has_places(alloc: Global, key: &str, places: &[u32]) -> Result<bool, Fail> {
    let traces = traces(alloc)?;
    has_places_in(alloc, &traces, key, places)
}

fn has_places_in(alloc: Global, traces: &Traces, key: &str, places: &[u32]) -> Result<bool, Fail> {
    let key = Name::rule(alloc, key)?;
    Ok(traces.places(&key) == places)
}

#[test]
fn traces_have_their_places(rt: HostRuntime) -> Result<(), Fail> {
    let alloc = rt.alloc();
    assert!(&rt; has_places(alloc, "a", &[0, 2, 3])?);
    assert!(&rt; has_places(alloc, "b", &[1])?);
    assert!(&rt; has_places(alloc, "c", &[])?);
    Ok(())
}
