//! How data is spelled, and which bytes spell none.

use carte_codec::{Spelled, Unread};
use carte_value::{Bad, Digest, Items, Link, Name, Value};
use std::alloc::Global;
use std::test::Fail;

/// What the bytes begin with is written again, and what is left of them put behind it.
fn again<T: Spelled + Drop>(alloc: Global, bytes: &[u8]) -> Result<Vec<u8>, Fail> {
    let mut out = Vec::new(alloc);
    if let Ok((item, rest)) = T::read(alloc, bytes) {
        item.write(&mut out)?;
        out.extend_from_slice(rest)?;
    }
    Ok(out)
}

/// It is written as these bytes but the last, and read again from them all.
fn is_spelled<T: Spelled + Drop>(alloc: Global, item: T, bytes: &[u8]) -> Result<bool, Fail> {
    let mut out = Vec::new(alloc);
    item.write(&mut out)?;
    out.push(9)?;
    Ok(out.as_slice() == bytes && again::<T>(alloc, bytes)?.as_slice() == bytes)
}

/// Bytes by hand, with a 9 behind them.
#[test]
fn items_are_spelled(rt: HostRuntime) -> Result<(), Fail> {
    let alloc = rt.alloc();
    assert!(&rt; are_flags_spelled(alloc)?);
    assert!(&rt; are_values_spelled(alloc)?);
    assert!(&rt; are_options_spelled(alloc)?);
    assert!(&rt; are_lists_spelled(alloc)?);
    Ok(())
}

fn are_flags_spelled(alloc: Global) -> Result<bool, Fail> {
    Ok(is_spelled(alloc, false, b"\0\x09")? && is_spelled(alloc, true, b"\x01\x09")?)
}

fn are_values_spelled(alloc: Global) -> Result<bool, Fail> {
    let pair = (Value::Empty, Value::Bad(Bad::Ref));
    Ok(
        is_spelled(alloc, pair, b"\0\x03\x03\x09")?
            && is_spelled(alloc, Digest([7; 32]), SEVENS)?
            && is_spelled(alloc, Value::Number(60), b"\x01\0\0\0\0\0\0\0\x3c\x09")?,
    )
}

fn are_options_spelled(alloc: Global) -> Result<bool, Fail> {
    Ok(
        is_spelled(alloc, None::<bool>, b"\0\x09")?
            && is_spelled(alloc, Some((true, false)), b"\x01\x01\0\x09")?,
    )
}

fn are_lists_spelled(alloc: Global) -> Result<bool, Fail> {
    Ok(
        is_spelled(alloc, Items::<Link>::new(alloc), b"\0\0\0\0\x09")?
            && is_spelled(alloc, links(alloc)?, LINKS)?,
    )
}

const SEVENS: &[u8] =
    b"\x07\x07\x07\x07\x07\x07\x07\x07\x07\x07\x07\x07\x07\x07\x07\x07\x07\x07\x07\x07\x07\x07\x07\x07\x07\x07\x07\x07\x07\x07\x07\x07\x09";

const LINKS: &[u8] =
    b"\0\0\0\x02\x07a_1/b.caaaaaaaaaaaaaaaaaaaaaaaaaaaaaaaa\x06AB9999bbbbbbbbbbbbbbbbbbbbbbbbbbbbbbbb\x09";

fn link(alloc: Global, name: &str, byte: u8) -> Result<Link, Fail> {
    let name = Name::exact(alloc, name)?;
    let digest = Digest([byte; 32]);
    Ok(Link { name, digest })
}

fn links(alloc: Global) -> Result<Items<Link>, Fail> {
    let mut links = Items::new(alloc);
    links.push(link(alloc, "a_1/b.c", 97)?)?;
    links.push(link(alloc, "AB9999", 98)?)?;
    Ok(links)
}

fn is_unread<T: Spelled + Drop>(alloc: Global, bytes: &[u8]) -> bool {
    match T::read(alloc, bytes) {
        Ok(_) => false,
        Err(unread) => unread == Unread::NotThere,
    }
}

// Whether none of these bytes spell such data.
fn are_unread<T: Spelled + Drop>(alloc: Global, rows: &[&[u8]]) -> bool {
    for bytes in rows {
        if !is_unread::<T>(alloc, bytes) {
            return false;
        }
    }
    true
}

const NO_NAMES: &[&[u8]] = &[
    b"",
    b"\0",
    b"\x03a1",
    b"\x02A0",
    b"\x03Ab1",
    b"\x02a\xc3",
    b"\x04ABC1",
];

const NO_LISTS: &[&[u8]] = &[b"\xff\xff\xff\xff", b"\0\0\0\x02\x01a", b"\0\0\0"];

#[test]
fn other_bytes_are_not_there(rt: HostRuntime) {
    let alloc = rt.alloc();
    assert!(&rt; are_unread::<Name>(alloc, NO_NAMES));
    assert!(&rt; are_unread::<Items<Name>>(alloc, NO_LISTS));
    assert!(&rt; is_unread::<bool>(alloc, b"\x02") && is_unread::<Option<bool>>(alloc, b"\x02\0"));
    assert!(&rt; is_unread::<Digest>(alloc, &[0; 31]) && is_unread::<Value>(alloc, b"\x04"));
}
