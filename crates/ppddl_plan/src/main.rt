//! The program: hands the words, the real folder and the real streams to `run`, and ends with its
//! answer.
#![tactic(auto)]

ghost use Rattle.std.specs.Prelude.{◌≡◌, ◌≢◌, ◌⊎◌, ◌↔◌, map, None, IfOk, string_bytes};
ghost use Rattle.shelf_io.specs.Causes.{Rose};
ghost use Rattle.plan_request.specs.declared.stop.status.TheConstants.{BAD_WORDS, WRITE_FAILED};
ghost use Rattle.plan_request.specs.declared.stop.status.TheConstants.{NO_MEMORY};
ghost use Rattle.plan_request.specs.Asked.{request_as_read, spelled_word};
ghost use Rattle.plan_app.specs.Asking.{IsToWrite, IsToServe};
ghost use Rattle.plan_app.specs.Endings.{LeavesForWords};

use plan_app::{ProgressLines, run};
use plan_request::{NO_MEMORY, spelled_word};
use shelf_io::{FolderShelf, FreeGate, InputSource, OutputSink, Shelf, Sink, Source};
use std::alloc::{AllocError, Global};
use std::env;
use std::io::{BufReader, ErrorKind};
use std::process::ExitCode;
use std::thread::Threads;

fn main(rt: HostRuntime) -> ExitCode {
    let words = match words_of(&rt) {
        Ok(words) => words,
        Err(_) => return ExitCode::from(NO_MEMORY),
    };
    let Ok(reader) = BufReader::new(rt.alloc(), rt.stdin()) else {
        return ExitCode::from(NO_MEMORY);
    };
    let mut shelf = FolderShelf::make(&rt);
    let mut source = InputSource::make(reader);
    // Standard output holds nothing back: each answer is seen as it is put.
    let mut out = OutputSink::make(rt.stdout());
    let mut notes = OutputSink::make(rt.stderr());
    let mut progress = ProgressLines::make(OutputSink::make(rt.stderr()));
    let status = run_with(
        &rt,
        rt.alloc(),
        words.as_slice(),
        &mut shelf,
        &mut source,
        &mut out,
        &mut notes,
        &mut progress,
    );
    ExitCode::from(status)
}

/// The words behind the program's name. Words that are not all text ask for nothing, as no words do.
fn words_of(rt: &HostRuntime) -> Result<Vec<String>, AllocError> {
    match env::args(rt) {
        Ok(args) => args.skip(1).collect(rt.alloc()),
        Err(error) if error.kind() == ErrorKind::OutOfMemory => Err(AllocError),
        Err(_) => Ok(Vec::new(rt.alloc())),
    }
}

/// Runs the program with these words, as they are read, and answers its status.
fn run_with<
    R: Threads + Sync,
    S: Shelf,
    I: Source + Send,
    O: Sink + Send,
    N: Sink + Send,
    P: Sink + Send,
>(
    rt: &R,
    alloc: Global,
    words: &[String],
    shelf: &mut S,
    source: &mut I,
    out: &mut O,
    notes: &mut N,
    progress: &mut ProgressLines<P>,
) -> u8
    ensures bad_words { result ≢ WRITE_FAILED → result ≢ NO_MEMORY
        → (result ≡ BAD_WORDS) ↔ (request_as_read (map string_bytes words.now) ≡ None) }
    ensures write_failed { result ≡ WRITE_FAILED → Rose (O.faults out.old) (O.faults out.new)
        ⊎ (IsToWrite (request_as_read (map string_bytes words.now))
        × Rose (S.write_faults shelf.old) (S.write_faults shelf.new)) }
    ensures memory { result ≡ NO_MEMORY → IsToServe (request_as_read (map string_bytes words.now))
        ⊎ (O.taken out.new ≡ O.taken out.old) }
    ensures shelf { LeavesForWords S.held S.read_faults S.write_faults shelf.old shelf.new
        (request_as_read (map string_bytes words.now)) }
    ensures source { IsToServe (request_as_read (map string_bytes words.now))
        ⊎ (source.new ≡ source.old) }
{
    match lent(alloc, words) {
        Ok(words) => run(
            rt,
            alloc,
            words.as_slice(),
            shelf,
            source,
            out,
            notes,
            progress,
            &FreeGate,
        ),
        Err(_) => NO_MEMORY,
    }
}

/// The words as they are read, lent.
fn lent(alloc: Global, words: &[String]) -> Result<Vec<&str>, AllocError>
    ensures { IfOk result (λ texts. map (λ text. text.now) texts.items
        ≡ map spelled_word (map string_bytes words.now)) }
{
    let mut texts = Vec::new(alloc);
    for word in words {
        texts.push(spelled_word(word.as_str()))?;
    }
    Ok(texts)
}
