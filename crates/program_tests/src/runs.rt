//! Runs over memory forms.

use crate::texts::shelf_of;
use plan_app::{ProgressLines, run};
use shelf_io::{FreeGate, Gate, MemoryShelf, MemorySink, MemorySource, Sink, Source};
use std::alloc::{AllocError, Global};
use std::process::Abort;
use std::thread::Threads;

/// What a run is made on besides its shelf: its words, its input, and the calls of the shelf, of the source and of
/// the sink that fail, 0 for none.
#[derive(Clone, Copy)]
pub(crate) struct Setting<'a> {
    pub(crate) words: &'a str,
    pub(crate) input: &'a [u8],
    pub(crate) failing: (u64, u64, u64),
}

/// The words of a run, its status and what is put. A text without a last line feed is what is put first.
pub(crate) type Row<'a, 'b> = (&'a str, u8, &'b str);

/// Runs words over a source and a sink, behind a gate, and answers the status.
pub(crate) fn run_behind<R: Threads + Sync, I: Source + Send, O: Sink + Send, G: Gate>(
    rt: &R,
    alloc: Global,
    words: &str,
    shelf: &mut MemoryShelf,
    source: &mut I,
    out: &mut O,
    gate: &G,
) -> Result<u8, AllocError> {
    let words: Vec<&str> = words.split_ascii_whitespace().collect(alloc)?;
    let mut notes = MemorySink::make(alloc)?;
    let mut progress = ProgressLines::make(MemorySink::make(alloc)?);
    Ok(run(
        rt,
        alloc,
        &words,
        shelf,
        source,
        out,
        &mut notes,
        &mut progress,
        gate,
    ))
}

/// A source of these bytes, of which the take with this number fails.
fn source_of(alloc: Global, input: &[u8], take: u64) -> Result<MemorySource, AllocError> {
    let mut source = MemorySource::make(alloc)?;
    source.fill(input)?;
    source.fail_at(take)?;
    Ok(source)
}

/// A sink of which the put with this number fails.
fn sink_of(alloc: Global, put: u64) -> Result<MemorySink, AllocError> {
    let mut out = MemorySink::make(alloc)?;
    out.fail_at(put)?;
    Ok(out)
}

/// Runs words over an input of which the take with this number fails, and answers the status.
fn run_from<R: Threads + Sync>(
    rt: &R,
    alloc: Global,
    words: &str,
    shelf: &mut MemoryShelf,
    input: &[u8],
    take: u64,
    out: &mut MemorySink,
) -> Result<u8, AllocError> {
    let mut source = source_of(alloc, input, take)?;
    let status = run_behind(rt, alloc, words, shelf, &mut source, out, &FreeGate);
    drop(source);
    status
}

/// Runs, and answers the status and what was put.
pub(crate) fn run_on<R: Threads + Sync>(
    rt: &R,
    alloc: Global,
    shelf: &mut MemoryShelf,
    setting: Setting<'_>,
) -> Result<(u8, MemorySink), AllocError> {
    let (read, take, put) = setting.failing;
    shelf.fail_at(read)?;
    let mut out = sink_of(alloc, put)?;
    let status = run_from(
        rt,
        alloc,
        setting.words,
        shelf,
        setting.input,
        take,
        &mut out,
    );
    Ok((status?, out))
}

/// Runs words without input, where no call fails.
pub(crate) fn run_words<R: Threads + Sync>(
    rt: &R,
    alloc: Global,
    shelf: &mut MemoryShelf,
    words: &str,
) -> Result<(u8, MemorySink), AllocError> {
    let setting = Setting {
        words,
        input: b"",
        failing: (0, 0, 0),
    };
    run_on(rt, alloc, shelf, setting)
}

/// Runs words without input, and answers what is noted beside the output.
pub(crate) fn run_noted<R: Threads + Sync>(
    rt: &R,
    alloc: Global,
    shelf: &mut MemoryShelf,
    words: &str,
) -> Result<MemorySink, AllocError> {
    let words: Vec<&str> = words.split_ascii_whitespace().collect(alloc)?;
    let mut source = MemorySource::make(alloc)?;
    let mut out = MemorySink::make(alloc)?;
    let mut notes = MemorySink::make(alloc)?;
    let mut progress = ProgressLines::make(MemorySink::make(alloc)?);
    run(
        rt,
        alloc,
        &words,
        shelf,
        &mut source,
        &mut out,
        &mut notes,
        &mut progress,
        &FreeGate,
    );
    drop(source);
    drop(out);
    drop(progress);
    Ok(notes)
}

/// Runs words over an input, and answers the status and the sink of the lines that tell of rounds, of which the put
/// with this number fails, 0 for none.
pub(crate) fn run_told<R: Threads + Sync>(
    rt: &R,
    alloc: Global,
    shelf: &mut MemoryShelf,
    words: &str,
    input: &[u8],
    put: u64,
) -> Result<(u8, MemorySink), AllocError> {
    let words: Vec<&str> = words.split_ascii_whitespace().collect(alloc)?;
    let mut source = source_of(alloc, input, 0)?;
    let mut out = MemorySink::make(alloc)?;
    let mut notes = MemorySink::make(alloc)?;
    let mut progress = ProgressLines::make(sink_of(alloc, put)?);
    let status = run(
        rt,
        alloc,
        &words,
        shelf,
        &mut source,
        &mut out,
        &mut notes,
        &mut progress,
        &FreeGate,
    );
    drop(source);
    drop(out);
    drop(notes);
    let ProgressLines { sink, .. } = progress;
    Ok((status, sink))
}

/// Wants the status and the text of a row.
fn check_put<R: Abort>(rt: &R, row: Row<'_, '_>, found: u8, put: &[u8]) {
    let (words, status, text) = row;
    if text.ends_with('\n') {
        assert_eq!(rt; put, text.as_bytes(), "{words}");
    } else {
        assert!(rt; put.starts_with(text.as_bytes()), "{words}");
    }
    assert_eq!(rt; found, status, "{words}");
}

/// Runs the words of a row, and wants what it says.
pub(crate) fn check_row<R: Threads + Sync + Abort>(
    rt: &R,
    alloc: Global,
    shelf: &mut MemoryShelf,
    row: Row<'_, '_>,
) -> Result<(), AllocError> {
    let (found, out) = run_words(rt, alloc, shelf, row.0)?;
    check_put(rt, row, found, out.bytes());
    drop(out);
    Ok(())
}

/// Runs the words of a row over the texts with other words in places, and wants what it says.
pub(crate) fn check_edited<R: Threads + Sync + Abort>(
    rt: &R,
    alloc: Global,
    edits: &[(&str, &str, &str)],
    row: Row<'_, '_>,
) -> Result<(), AllocError> {
    let mut shelf = shelf_of(alloc, edits)?;
    let checked = check_row(rt, alloc, &mut shelf, row);
    drop(shelf);
    checked
}
