//! The coin cut behind each of its tokens.

use crate::runs::check_row;
use crate::texts::COIN;
use shelf_io::MemoryShelf;
use std::alloc::{AllocError, Global};
use std::process::Abort;
use std::test::Fail;
use std::thread::Threads;

/// How many tokens the coin has.
const TOKENS: u32 = 70;

/// Whether a token ends with a byte of the coin that has another one behind it.
fn ends_token(byte: u8, next: u8) -> bool {
    match byte {
        b' ' | b'\n' => false,
        b'(' | b')' => true,
        _ => matches!(next, b' ' | b'\n' | b'(' | b')'),
    }
}

/// How many parentheses are open behind a byte, where so many were before it.
fn open_behind(open: u32, byte: u8) -> u32 {
    match byte {
        b'(' => open.saturating_add(1),
        b')' => open.saturating_sub(1),
        _ => open,
    }
}

/// Reads the first part of the coin, which ends on this line with so many open parentheses. Something is open but behind
/// the domain, which needs a problem, and behind the problem.
fn check_cut<R: Threads + Sync + Abort>(
    rt: &R,
    alloc: Global,
    shelf: &mut MemoryShelf,
    open: u32,
    line: u32,
) -> Result<(), AllocError> {
    if open > 0 {
        let refusal = format!(in alloc; "refused 2 1:{line}\n")?;
        return check_row(rt, alloc, shelf, ("ground cut", 6, refusal.as_str()));
    }
    let row = match line {
        5 => ("ground cut", 6, "refused 13 1:5\n"),
        _ => ("ground cut", 0, "penalty 10.000000"),
    };
    check_row(rt, alloc, shelf, row)
}

/// Reads the coin cut behind each of its tokens, and answers how many there are.
fn check_cuts<R: Threads + Sync + Abort>(
    rt: &R,
    alloc: Global,
    shelf: &mut MemoryShelf,
) -> Result<u32, AllocError> {
    let bytes = COIN.as_bytes();
    let mut line: u32 = 1;
    let mut open: u32 = 0;
    let mut tokens: u32 = 0;
    for end in 1..bytes.len() {
        let byte = bytes[end - 1];
        line = line.saturating_add(u32::from(byte == b'\n'));
        open = open_behind(open, byte);
        if ends_token(byte, bytes[end]) {
            tokens = tokens.saturating_add(1);
            shelf.hold("cut", &bytes[..end])?;
            check_cut(rt, alloc, shelf, open, line)?;
        }
    }
    Ok(tokens)
}

#[test]
fn the_coin_is_cut(rt: HostRuntime) -> Result<(), Fail> {
    let mut shelf = MemoryShelf::make(rt.alloc())?;
    let tokens = check_cuts(&rt, rt.alloc(), &mut shelf);
    drop(shelf);
    assert_eq!(rt; tokens?, TOKENS);
    Ok(())
}
