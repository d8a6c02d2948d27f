//! The real folder and the real streams.

use shelf_io::{
    Bytes, Failed, FolderShelf, InputSource, OutputSink, Shelf, ShelfFault, Sink, Source,
    WriteFault, put_all,
};
use std::alloc::Global;
use std::test::Fail;
use std::thread::Threads;
use std::{fs, thread};

// The calls through their bounds. With no clause here, a test's own proof stays short.
fn read<S: Shelf>(
    alloc: Global,
    shelf: &mut S,
    name: &str,
    limit: u64,
) -> Result<Bytes, ShelfFault> {
    shelf.read(alloc, name, limit)
}

fn write<S: Shelf>(
    alloc: Global,
    shelf: &mut S,
    name: &str,
    bytes: &[u8],
) -> Result<(), WriteFault> {
    shelf.write(alloc, name, bytes)
}

fn take<I: Source>(source: &mut I, into: &mut [u8]) -> Result<usize, Failed> {
    source.take(into)
}

fn put<O: Sink>(sink: &mut O, from: &[u8]) -> Result<(), Failed> {
    put_all(sink, from)
}

/// What is written.
static WRITTEN: [(&str, &[u8]); 4] = [
    ("coin", b"heads"),
    ("tire", b"flat"),
    ("coin", b"tails"),
    ("road", b""),
];

/// What each read answers then.
static READ: [(&str, u64, Result<&[u8], ShelfFault>); 6] = [
    ("coin", 5, Ok(b"tails")),
    ("coin", 4, Err(ShelfFault::TooLong)),
    ("tire", u64::MAX, Ok(b"flat")),
    ("road", 0, Ok(b"")),
    ("bench", 9, Err(ShelfFault::Failed)),
    ("coi", 9, Err(ShelfFault::Failed)),
];

/// A new file that an earlier run left is let alone.
#[test]
fn folders_hold_what_was_written(rt: HostRuntime) -> Result<(), Fail> {
    let alloc = rt.alloc();
    fs::write(&rt, "coin.0.part", "half")?;
    let mut shelf = FolderShelf::make(&rt);
    for (name, bytes) in &WRITTEN {
        write(alloc, &mut shelf, name, bytes)?;
    }
    for (name, limit, wanted) in &READ {
        let answer = read(alloc, &mut shelf, name, *limit);
        let found = answer.as_ref().map(|bytes| bytes.as_slice());
        assert_eq!(rt; found.ok(), wanted.ok(), "{name}");
        assert_eq!(rt; answer.err(), wanted.err(), "{name}");
    }
    assert_eq!(rt; fs::read_to_string(&rt, "coin")?.as_str(), "tails");
    assert_eq!(rt; fs::read_to_string(&rt, "coin.0.part")?.as_str(), "half");
    assert_eq!(rt; fs::exists(&rt, "coin.1.part")?, false);
    let unwritten = write(alloc, &mut shelf, "none/coin", b"x");
    assert_eq!(rt; unwritten, Err(WriteFault::Failed));
    for name in ["coin", "tire", "road", "coin.0.part"] {
        fs::remove_file(&rt, name)?;
    }
    Ok(())
}

/// The bytes fill more than two pages.
#[test]
fn folders_hold_long_texts(rt: HostRuntime) -> Result<(), Fail> {
    let alloc = rt.alloc();
    let mut bytes = Vec::new(alloc);
    for number in 0..10_000_u32 {
        bytes.push((number % 251) as u8)?;
    }
    let mut shelf = FolderShelf::make(&rt);
    write(alloc, &mut shelf, "long", bytes.as_slice())?;
    let found = read(alloc, &mut shelf, "long", 10_000)?;
    assert!(rt; found.as_slice() == bytes.as_slice());
    assert_eq!(rt; fs::exists(&rt, "long.0.part")?, false);
    fs::remove_file(&rt, "long")?;
    Ok(())
}

/// No file gets the name of a folder, so the new file is removed.
#[test]
fn folders_under_a_name_stay(rt: HostRuntime) -> Result<(), Fail> {
    let alloc = rt.alloc();
    fs::create_dir(&rt, "barn")?;
    let mut shelf = FolderShelf::make(&rt);
    let unwritten = write(alloc, &mut shelf, "barn", b"x");
    assert_eq!(rt; unwritten, Err(WriteFault::Failed));
    assert_eq!(rt; fs::exists(&rt, "barn.0.part")?, false);
    fs::remove_dir(&rt, "barn")?;
    Ok(())
}

/// The source in one thread and the sink in another.
fn side_by_side<R: Threads, I: Source + Send, O: Sink + Send>(
    rt: &R,
    source: &mut I,
    sink: &mut O,
) -> bool {
    let (taken, put) = thread::join(rt, || take(source, &mut [0; 4]), || put(sink, b"dry\n"));
    taken == Ok(0) && put == Ok(())
}

/// A test's standard input is at its end.
#[test]
fn streams_go_into_threads(rt: HostRuntime) -> Result<(), Fail> {
    let mut source = InputSource::make(rt.stdin());
    let mut sink = OutputSink::make(rt.stdout());
    assert!(rt; side_by_side(&rt, &mut source, &mut sink));
    Ok(())
}
