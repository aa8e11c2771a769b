//! Sources, sinks and files: what they pass on, and where they fail.

use carte_io::{
    Disk, FileDisk, MemSink, MemSource, ReadEnd, ReadSource, Sink, Source, WriteSink, read_whole,
    write_all,
};
use carte_value::NoMemory;
use std::alloc::Global;
use std::fs::OpenOptions;
use std::io::{self, ErrorKind, Write};
use std::test::Fail;

// A writer that takes all of it, and can't hand it on.
#[derive(Drop)]
struct Unflushable;

impl Write for Unflushable {
    fn write(&mut self, buf: &[u8]) -> io::Result<usize> {
        Ok(buf.len())
    }

    fn flush(&mut self) -> io::Result<()> {
        Err(io::Error::from(ErrorKind::Other))
    }
}

/// Whether the source has these bytes left, of which it reads so many at most.
fn gives<S: Source>(alloc: Global, source: &mut S, limit: usize, want: &[u8]) -> bool {
    match read_whole(alloc, source, limit) {
        Ok(bytes) => bytes.as_slice() == want,
        Err(_) => false,
    }
}

fn gives_all_behind_a_fault(alloc: Global) -> Result<bool, NoMemory> {
    let mut source = MemSource::of(alloc, b"abcdef", &[1])?;
    let failed = read_whole(alloc, &mut source, 6).is_err();
    Ok(failed && gives(alloc, &mut source, 6, b"abcdef"))
}

fn is_too_long(alloc: Global) -> Result<bool, NoMemory> {
    let mut longer = MemSource::of(alloc, b"abcdef", &[])?;
    let end = read_whole(alloc, &mut longer, 5);
    Ok(matches!(end, Err(ReadEnd::TooLong)))
}

fn gives_three_pieces(alloc: Global) -> Result<bool, NoMemory> {
    let long = vec![in alloc; 7u8; 20000]?;
    let mut pieces = MemSource::of(alloc, &long, &[])?;
    Ok(gives(alloc, &mut pieces, 20000, &long))
}

/// The second call of this one fails, and moves nothing.
fn gives_small_pieces(alloc: Global) -> Result<bool, NoMemory> {
    let mut slow = MemSource::slow(alloc, b"abcde", 2, &[2])?;
    let mut into = [b'.'; 4];
    let first = slow.read(&mut into).ok() == Some(2);
    let second = slow.read(&mut into).is_err();
    let moved = first && second && into == *b"ab..";
    Ok(moved && gives(alloc, &mut slow, 3, b"cde"))
}

#[test]
fn a_source_is_read_whole(rt: HostRuntime) -> Result<(), Fail> {
    assert!(rt;
        gives_all_behind_a_fault(rt.alloc())?,
        "the first call fails"
    );
    assert!(rt; is_too_long(rt.alloc())?);
    assert!(rt; gives_three_pieces(rt.alloc())?);
    assert!(rt; gives_small_pieces(rt.alloc())?);
    let mut slice = ReadSource::of(b"xyz".as_slice());
    assert!(rt; gives(rt.alloc(), &mut slice, 100, b"xyz"));
    Ok(())
}

#[test]
fn a_sink_takes_it_all(rt: HostRuntime) -> Result<(), Fail> {
    let mut sink = MemSink::new(rt.alloc(), 3, &[5])?;
    assert!(rt; write_all(&mut sink, b"abcdefgh").is_ok());
    assert!(rt; sink.finish().is_ok());
    assert!(rt;
        write_all(&mut sink, b"ij").is_err(),
        "the fifth call fails"
    );
    assert_eq!(rt; sink.bytes(), b"abcdefgh".as_slice());
    assert_eq!(rt; (sink.handed(), sink.faults()), (8, 1));
    let mut writer = WriteSink::of(Vec::new(rt.alloc()));
    assert!(rt; write_all(&mut writer, b"ab").is_ok());
    assert!(rt; writer.finish().is_ok());
    Ok(())
}

#[test]
fn what_cannot_hand_on_fails(rt: HostRuntime) -> Result<(), Fail> {
    let mut sink = WriteSink::of(Unflushable);
    assert!(rt; write_all(&mut sink, b"ab").is_ok());
    assert!(rt; sink.finish().is_err(), "a writer that can't flush");
    let null = OpenOptions::new()
        .read(true)
        .write(true)
        .open(&rt, "/dev/null")?;
    let mut disk = FileDisk::of(null);
    assert!(rt; disk.write_at(0, b"ab").is_ok());
    assert!(rt; disk.sync().is_err(), "a device that can't sync");
    assert!(rt; disk.len().is_err(), "a device has no length");
    Ok(())
}

#[test]
fn a_file_is_a_disk(rt: HostRuntime) -> Result<(), Fail> {
    let file = OpenOptions::new()
        .read(true)
        .write(true)
        .create(true)
        .truncate(true)
        .open(&rt, "file_disk_of_a_test")?;
    let mut disk = FileDisk::of(file);
    assert!(rt; disk.write_at(2, b"cd").is_ok());
    assert!(rt; disk.write_at(0, b"ab").is_ok());
    assert!(rt; disk.sync().is_ok());
    assert_eq!(rt; disk.len().ok(), Some(4));
    assert!(rt; disk.write_at(4090, b"over a page").is_ok());
    let mut over = [0; 14];
    assert!(rt; disk.read_at(4087, &mut over).is_ok());
    assert_eq!(rt; over.as_slice(), b"\0\0\0over a page".as_slice());
    let mut into = [0; 3];
    assert!(rt; disk.read_at(1, &mut into).is_ok());
    assert_eq!(rt; into, *b"bcd");
    assert!(rt;
        disk.read_at(4100, &mut into).is_err(),
        "a range that isn't there"
    );
    std::fs::remove_file(&rt, "file_disk_of_a_test")?;
    Ok(())
}
