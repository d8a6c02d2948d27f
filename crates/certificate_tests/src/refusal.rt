//! Texts that are no certificates: what is wrong, and in which line.

use certificate::CertRefusal::{self, Count, Order, Syntax, TooLong, Unused};
use certificate::{MOST_BYTES_1, read};
use std::alloc::{AllocError, Global};
use std::process::Abort;
use std::test::Fail;

/// A text of version 1, line by line.
static NAMED: [&[u8]; 6] = [
    b"cert 1\n",
    b"penalty 10000000\n",
    b"interval 2000000 2000000\n",
    b"states 1\n",
    b"2000000 2000000 (flip) :\n",
    b"end\n",
];

/// What stands in place of one of its lines, counted from 0, and the refusal then.
static NAMED_REFUSED: [(usize, &[u8], CertRefusal); 41] = [
    // Lines that are missing, and lines of another form.
    (0, b"", Syntax { line: 1 }),
    (0, b"cert 3\n", Syntax { line: 1 }),
    (0, b"cert 1 \n", Syntax { line: 1 }),
    (1, b"", Syntax { line: 2 }),
    (1, b"penalty 0\n", Syntax { line: 2 }),
    (1, b"penalty 010\n", Syntax { line: 2 }),
    (1, b"penalty +1\n", Syntax { line: 2 }),
    (2, b"", Syntax { line: 3 }),
    (2, b"interval 2000000\n", Syntax { line: 3 }),
    (2, b"interval 0 00\n", Syntax { line: 3 }),
    (3, b"", Syntax { line: 4 }),
    (3, b"states 01\n", Syntax { line: 4 }),
    // One micro-unit above the greatest number, and one row above the greatest count.
    (1, b"penalty 100000000000001\n", Syntax { line: 2 }),
    (5, b"1 100000000000001 goal :\n", Syntax { line: 6 }),
    (3, b"states 1000001\n", Syntax { line: 4 }),
    // Rows of another form.
    (4, b"1 2 flip :\n", Syntax { line: 5 }),
    (4, b"1 2 () :\n", Syntax { line: 5 }),
    (4, b"1 2 (flip ) :\n", Syntax { line: 5 }),
    (4, b"1  2 (flip) :\n", Syntax { line: 5 }),
    (4, b"1 2 (flip) : \n", Syntax { line: 5 }),
    (4, b"1 2 (flip) :\r\n", Syntax { line: 5 }),
    // Words that are no names in lower case.
    (4, b"1 2 (Flip) :\n", Syntax { line: 5 }),
    (4, b"1 2 (flIp) :\n", Syntax { line: 5 }),
    (4, b"1 2 (1flip) :\n", Syntax { line: 5 }),
    (4, b"1 2 (fl.ip) :\n", Syntax { line: 5 }),
    (4, b"1 2 (and) :\n", Syntax { line: 5 }),
    (4, b"1 2 (flip) : (p when)\n", Syntax { line: 5 }),
    // More and fewer rows than were said; a row in place of `end` that does not rise is one too many.
    (3, b"states 2\n", Count { line: 6 }),
    (3, b"states 0\n", Count { line: 5 }),
    (5, b"1 2 goal : (b) (a)\n", Count { line: 6 }),
    // Something behind the end.
    (5, b"end \n", Syntax { line: 6 }),
    (5, b"end\nx", Syntax { line: 7 }),
    (5, b"end\n\n", Syntax { line: 7 }),
    (5, b"end\nend\n", Syntax { line: 7 }),
    // Atoms and rows that do not rise.
    (4, b"1 2 goal : (b) (a)\n", Order { line: 5 }),
    (4, b"1 2 goal : (a) (a)\n", Order { line: 5 }),
    (4, b"1 2 goal : (a) (b) (b)\n", Order { line: 5 }),
    (
        3,
        b"states 3\n1 2 goal : (a) (b)\n1 2 goal : (a)\n",
        Order { line: 6 },
    ),
    (
        3,
        b"states 3\n1 2 goal : (b)\n1 2 goal : (a)\n",
        Order { line: 6 },
    ),
    (3, b"states 2\n3 4 goal :\n", Order { line: 6 }),
    (4, b"1 2 goal :\n1 2 goal :\n", Count { line: 6 }),
];

/// A text of version 2, line by line. Each table has two entries, and each entry one use.
static NUMBERED: [&[u8]; 13] = [
    b"cert 2\n",
    b"penalty 10000000\n",
    b"interval 2000000 2000000\n",
    b"atoms 2\n",
    b"(at a)\n",
    b"(at b)\n",
    b"acts 2\n",
    b"(go)\n",
    b"(stay)\n",
    b"states 2\n",
    b"2 3 1 : 0\n",
    b"5 7 0 : 1\n",
    b"end\n",
];

/// What stands in place of one of its lines, counted from 0, and the refusal then.
static NUMBERED_REFUSED: [(usize, &[u8], CertRefusal); 49] = [
    // Counts that are missing or of another form.
    (3, b"", Syntax { line: 4 }),
    (3, b"atoms 02\n", Syntax { line: 4 }),
    (3, b"atoms 1000001\n", Syntax { line: 4 }),
    (6, b"acts 1000001\n", Syntax { line: 7 }),
    (9, b"states 1000001\n", Syntax { line: 10 }),
    // What stands behind a table in place of its lines, and other words there.
    (4, b"acts 2\n", Count { line: 5 }),
    (4, b"acts 02\n", Syntax { line: 5 }),
    (4, b"states 2\n", Syntax { line: 5 }),
    (4, b"end\n", Syntax { line: 5 }),
    (7, b"states 2\n", Count { line: 8 }),
    (7, b"acts 2\n", Syntax { line: 8 }),
    (7, b"end\n", Syntax { line: 8 }),
    (9, b"2 3 1 : 0\n", Syntax { line: 10 }),
    // Entries and rows that are missing: what stands behind them comes too soon.
    (4, b"", Count { line: 6 }),
    (5, b"", Count { line: 6 }),
    (7, b"", Count { line: 9 }),
    (8, b"", Count { line: 9 }),
    (10, b"", Count { line: 12 }),
    (11, b"", Count { line: 12 }),
    // Entries and rows that stand twice: the first of two does not rise, the last one is one too many.
    (4, b"(at a)\n(at a)\n", Order { line: 6 }),
    (5, b"(at b)\n(at b)\n", Count { line: 7 }),
    (7, b"(go)\n(go)\n", Order { line: 9 }),
    (8, b"(stay)\n(stay)\n", Count { line: 10 }),
    (10, b"2 3 1 : 0\n2 3 1 : 0\n", Order { line: 12 }),
    (11, b"5 7 0 : 1\n5 7 0 : 1\n", Count { line: 13 }),
    // The count of actions is missing, so that an action is one atom too many; no row is an action.
    (6, b"", Count { line: 7 }),
    (9, b"", Syntax { line: 10 }),
    // Entries of another form, and such that do not rise.
    (4, b"(At a)\n", Syntax { line: 5 }),
    (4, b"(at a) \n", Syntax { line: 5 }),
    (4, b"at a\n", Syntax { line: 5 }),
    (4, b"()\n", Syntax { line: 5 }),
    (4, b"(at c)\n", Order { line: 6 }),
    (8, b"(g)\n", Order { line: 9 }),
    // Numbers that are a table's length, and rows of another form.
    (10, b"2 3 2 : 0\n", Syntax { line: 11 }),
    (11, b"5 7 0 : 2\n", Syntax { line: 12 }),
    (11, b"5 7 0 : 01\n", Syntax { line: 12 }),
    (11, b"5 7 00 : 1\n", Syntax { line: 12 }),
    (11, b"5 7 0 :  1\n", Syntax { line: 12 }),
    (11, b"5 7 0 : 1 \n", Syntax { line: 12 }),
    (11, b"5 7 0 :1\n", Syntax { line: 12 }),
    (11, b"5 7 (go) : 1\n", Syntax { line: 12 }),
    (11, b"5 7 0 : (at b)\n", Syntax { line: 12 }),
    (12, b"5 7 0 : 2\n", Syntax { line: 13 }),
    // Numbers and rows that do not rise.
    (11, b"5 7 0 : 1 1\n", Order { line: 12 }),
    (11, b"5 7 0 : 1 0\n", Order { line: 12 }),
    (11, b"5 7 0 :\n", Order { line: 12 }),
    // Entries that no row uses.
    (10, b"2 3 1 :\n", Unused { line: 5 }),
    (11, b"5 7 1 : 1\n", Unused { line: 8 }),
    (11, b"5 7 goal : 0 1\n", Unused { line: 8 }),
];

/// The text with the line at this place replaced.
fn replaced(
    alloc: Global,
    lines: &[&[u8]],
    place: usize,
    by: &[u8],
) -> Result<Vec<u8>, AllocError> {
    let mut text = Vec::new(alloc);
    for (index, line) in lines.iter().enumerate() {
        text.extend_from_slice(if index == place { by } else { line })?;
    }
    Ok(text)
}

/// Reads the text with each line in place of another, and wants the refusal beside it.
fn check_rows(
    rt: &impl Abort,
    alloc: Global,
    lines: &[&[u8]],
    rows: &[(usize, &[u8], CertRefusal)],
) -> Result<(), Fail> {
    for (place, line, refusal) in rows {
        let text = replaced(alloc, lines, *place, line)?;
        assert_eq!(rt; read(alloc, &text).err(), Some(*refusal), "{line:?}");
    }
    Ok(())
}

#[test]
fn lines_are_refused(rt: HostRuntime) -> Result<(), Fail> {
    let alloc = rt.alloc();
    check_rows(&rt, alloc, &NAMED, &NAMED_REFUSED)?;
    check_rows(&rt, alloc, &NUMBERED, &NUMBERED_REFUSED)
}

/// Reads the first bytes of a text, of each length, and wants the first line refused that is missing.
fn check_cuts(rt: &impl Abort, alloc: Global, lines: &[&[u8]]) -> Result<(), Fail> {
    let text = lines.concat(alloc)?;
    let mut line = 1u32;
    for (length, byte) in text.iter().enumerate() {
        let refusal = Some(Syntax { line });
        assert_eq!(rt; read(alloc, &text[..length]).err(), refusal);
        if *byte == b'\n' {
            line = line.saturating_add(1);
        }
    }
    Ok(())
}

#[test]
fn cut_texts_are_refused(rt: HostRuntime) -> Result<(), Fail> {
    check_cuts(&rt, rt.alloc(), &NAMED)?;
    check_cuts(&rt, rt.alloc(), &NUMBERED)
}

/// One byte more than version 1 may have, and just as many.
#[test]
fn long_texts_are_refused(rt: HostRuntime) -> Result<(), Fail> {
    let alloc = rt.alloc();
    let mut bytes = b"cert 1\n".to_vec(alloc)?;
    bytes.resize(MOST_BYTES_1 + 1, b'c')?;
    assert_eq!(rt; read(alloc, &bytes).err(), Some(TooLong));
    bytes.truncate(MOST_BYTES_1);
    assert_eq!(rt; read(alloc, &bytes).err(), Some(Syntax { line: 2 }));
    Ok(())
}
