//! Which bytes are a journal, and what commits leave.

use carte_io::{Disk, FileDisk, MemDisk};
use carte_journal::{Body, Frame, Journal, LoadFault, commit_all};
use carte_value::NoMemory;
use std::alloc::Global;
use std::fs::OpenOptions;
use std::test::Fail;

// Three frames, of `a`, `bc` and no bytes, at 8, 14 and 21, and the closed gate byte at 26.
const FILE: [u8; 27] = *b"CARTE01\n\x01\0\0\0\x01a\x01\0\0\0\x02bc\x01\0\0\0\0\0";

// What a prefix of that file gives, for each length from 0 on: a number of bodies, or A to E for a bad state at 0, 8,
// 14, 21 or 26. From a reading of the format by a script.
const PREFIXES: [u8; 28] = *b"0000000000BBBBBCCCCCCCDDDDD3";

// What the file gives with one bit turned, the lowest of each byte first. From the same script.
const FLIPS: [u8; 216] =
    *b"AAAAAAAAAAAAAAAAAAAAAAAAAAAAAAAAAAAAAAAAAAAAAAAAAAAAAAAAAAAAAAAA00000000BBBBBBBBBBBBBBBBBBBBBBBB1111BBBB3333333311111111CCCCCCCCCCCCCCCCCCCCCCCC222CCCCC333333333333333322222222DDDDDDDDDDDDDDDDDDDDDDDDDDDDDDDDE3333333";

// How a file loads within a limit, in the letters of the tables.
fn code(alloc: Global, bytes: &[u8], limit: u16) -> Result<u8, NoMemory> {
    let mut disk = MemDisk::of(alloc, bytes, &[])?;
    match Journal::load(alloc, &mut disk, limit as u64) {
        Ok((_journal, bodies)) => Ok(b'0' + bodies.len().min(9) as u8),
        Err(LoadFault::BadState(0)) => Ok(b'A'),
        Err(LoadFault::BadState(8)) => Ok(b'B'),
        Err(LoadFault::BadState(14)) => Ok(b'C'),
        Err(LoadFault::BadState(21)) => Ok(b'D'),
        Err(LoadFault::BadState(26)) => Ok(b'E'),
        Err(_) => Ok(b'?'),
    }
}

fn flipped(alloc: Global, bit: usize) -> Result<Vec<u8>, NoMemory> {
    let mut bytes = FILE.to_vec(alloc)?;
    if let Some(byte) = bytes.get_mut(bit / 8) {
        *byte ^= 1u8 << (bit % 8);
    }
    Ok(bytes)
}

#[test]
fn damaged_files_load_by_the_format(rt: HostRuntime) -> Result<(), Fail> {
    for (len, want) in PREFIXES.iter().enumerate() {
        let prefix = FILE.get(..len).unwrap_or(&FILE);
        assert_eq!(rt; code(rt.alloc(), prefix, 1000)?, *want, "a prefix of {len}");
    }
    for (bit, want) in FLIPS.iter().enumerate() {
        let bytes = flipped(rt.alloc(), bit)?;
        assert_eq!(rt; code(rt.alloc(), &bytes, 1000)?, *want, "bit {bit} turned");
    }
    let cases = [
        (b"CARTE01\n\x01\0\0\0\x10\x01\0".as_slice(), b'B'),
        ([0xff; 9].as_slice(), b'0'),
        ([0xff; 10].as_slice(), b'A'),
    ];
    for (bytes, want) in cases {
        assert_eq!(rt; code(rt.alloc(), bytes, 1000)?, want);
    }
    // The gate bytes behind the three frames are at 14, 21 and 26.
    let limits = [
        (0, b'B'),
        (14, b'B'),
        (15, b'C'),
        (21, b'C'),
        (22, b'D'),
        (26, b'D'),
        (27, b'3'),
    ];
    for (limit, want) in limits {
        assert_eq!(rt; code(rt.alloc(), &FILE, limit)?, want, "a limit of {limit}");
    }
    Ok(())
}

// A file of one body, `ab`.
const ONE: [u8; 16] = *b"CARTE01\n\x01\0\0\0\x02ab\0";

// Whether a commit of `ab` to the disk, which lets so many calls be made, is Ok.
fn commits(alloc: Global, disk: &mut MemDisk) -> Result<bool, NoMemory> {
    let frame = Frame::of(alloc, b"ab")?;
    let Ok((mut journal, _bodies)) = Journal::load(alloc, disk, 1000) else {
        return Ok(false);
    };
    disk.stop_after(100);
    let done = journal.commit(disk, &frame).is_ok();
    Ok(done && !journal.is_broken())
}

#[test]
fn a_commit_has_its_bytes(rt: HostRuntime) -> Result<(), Fail> {
    let mut disk = Box::new(rt.alloc(), MemDisk::of(rt.alloc(), b"", &[])?)?;
    assert!(rt; commits(rt.alloc(), &mut disk)?);
    assert_eq!(rt; disk.bytes(), ONE.as_slice());
    assert_eq!(rt; disk.passed(), 6);
    let Ok((journal, bodies)) = Journal::load(rt.alloc(), &mut *disk, 1000) else {
        return Err(Fail::from("it loads"));
    };
    assert!(rt; !journal.is_broken());
    let mut copy = bodies.copy(rt.alloc())?;
    let first = copy.get(0).ok_or("a body")?;
    assert_eq!(rt; (first.offset(), first.bytes()), (8, b"ab".as_slice()));
    if copy.len() == 1 {
        copy.push(Body::of(rt.alloc(), 15, b"cd")?)?;
    }
    assert_eq!(rt; copy.as_slice().len(), 2);
    assert!(rt; copy.get(2).is_none());
    Ok(())
}

// A body whose bytes differ from place to place, and from one number to another.
fn long_body(alloc: Global, number: u8, length: u16) -> Result<Vec<u8>, NoMemory> {
    let mut bytes = Vec::new(alloc);
    for place in 0..length {
        bytes.push(number.wrapping_add((place % 251) as u8))?;
    }
    Ok(bytes)
}

// Whether twenty bodies of 10,000 bytes are read again, behind one that makes the next gate byte the first of a page.
fn holds_long_bodies<D: Disk>(alloc: Global, disk: &mut D) -> Result<bool, NoMemory> {
    let mut frames = Vec::new(alloc);
    for number in 0..21 {
        let body = long_body(alloc, number, if number == 0 { 4083 } else { 10000 })?;
        if body.len() > 9 && body.len() < 65536 {
            frames.push(Frame::of(alloc, &body)?)?;
        }
    }
    let Ok((mut journal, _bodies)) = Journal::load(alloc, disk, 1 << 20) else {
        return Ok(false);
    };
    if commit_all(&mut journal, disk, &frames).is_err() {
        return Ok(false);
    }
    let Ok((_journal, bodies)) = Journal::load(alloc, disk, 1 << 20) else {
        return Ok(false);
    };
    for (body, number) in bodies.as_slice().iter().zip(0..21) {
        let want = long_body(alloc, number, if number == 0 { 4083 } else { 10000 })?;
        if body.bytes() != want.as_slice() {
            return Ok(false);
        }
    }
    Ok(bodies.len() == 21)
}

#[test]
fn a_disk_and_a_file_hold_a_journal(rt: HostRuntime) -> Result<(), Fail> {
    let mut disk = MemDisk::of(rt.alloc(), b"", &[])?;
    assert!(rt; holds_long_bodies(rt.alloc(), &mut disk)?);
    let file = OpenOptions::new()
        .read(true)
        .write(true)
        .create(true)
        .truncate(true)
        .open(&rt, "journal_of_a_test")?;
    let mut disk = FileDisk::of(file);
    assert!(rt; holds_long_bodies(rt.alloc(), &mut disk)?);
    let bytes = std::fs::read(&rt, "journal_of_a_test")?;
    assert_eq!(rt; bytes.len(), 8 + 4088 + 20 * 10005 + 1);
    assert_eq!(rt; (bytes.get(4095), bytes.get(4096)), (Some(&66), Some(&1)));
    std::fs::remove_file(&rt, "journal_of_a_test")?;
    Ok(())
}
