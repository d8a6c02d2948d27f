//! Certificates that are read and written, one of them of many rows.

use certificate::{Act, RowView, read, write};
use std::alloc::{AllocError, Global};
use std::test::Fail;

/// Certificates that are read, each with its one text.
static TEXTS: [&[u8]; 8] = [
    b"cert 1
penalty 10000000
interval 1999999 2000001
states 1
1999999 2000001 (flip) :
end
",
    // Each kind of act, and rows that rise.
    b"cert 1
penalty 70000000
interval 40 41
states 3
0 0 goal : (at home) (clean)
12 70000000 give-up : (at l-1)
5 9 (move-car l1 l_2) : (at l-1) (clean)
end
",
    // No rows, and an interval whose ends stand the wrong way round.
    b"cert 1
penalty 1
interval 5 4
states 0
end
",
    // The greatest numbers.
    b"cert 1
penalty 100000000000000
interval 0 100000000000000
states 1
0 100000000000000 give-up : (p)
end
",
    // A row whose atoms begin the next one's.
    b"cert 1
penalty 9
interval 1 2
states 3
1 2 goal : (a)
1 2 goal : (a) (b)
1 2 goal : (b)
end
",
    b"cert 2
penalty 10000000
interval 1999999 2000001
atoms 0
acts 1
(flip)
states 1
1999999 2000001 0 :
end
",
    // No rows and no entries.
    b"cert 2
penalty 1
interval 5 4
atoms 0
acts 0
states 0
end
",
    // Each kind of act, and numbers that rise where their digits do not.
    b"cert 2
penalty 9
interval 1 2
atoms 11
(a)
(b)
(c)
(d)
(e)
(f)
(g)
(h)
(i)
(j)
(k)
acts 2
(go a)
(go)
states 5
1 2 give-up :
1 2 0 : 0 1 2 3 4 5 6 7 8
3 4 1 : 2 9 10
0 100000000000000 1 : 9
0 0 goal : 10
end
",
];

/// A text of 400 rows of three atoms each.
fn many_rows(alloc: Global) -> Result<String, AllocError> {
    let mut text = String::from_str(alloc, "cert 1\npenalty 9\ninterval 0 9\nstates 400\n")?;
    for n in 1000..1400 {
        let row = format!(in alloc; "0 9 (drive l{n}) : (at l{n}) (fuel l{n}) (tire ok)\n")?;
        text.push_str(row.as_str())?;
    }
    text.push_str("end\n")?;
    Ok(text)
}

#[test]
fn texts_are_read_and_written(rt: HostRuntime) -> Result<(), Fail> {
    let alloc = rt.alloc();
    for text in &TEXTS {
        let written = write(alloc, &read(alloc, text)?)?;
        assert_eq!(rt; written.as_slice(), *text);
    }
    let text = many_rows(alloc)?;
    let written = write(alloc, &read(alloc, text.as_bytes())?)?;
    assert_eq!(rt; written.as_slice(), text.as_bytes());
    Ok(())
}

#[test]
fn rows_have_numbers_of_tables(rt: HostRuntime) -> Result<(), Fail> {
    let certificate = read(rt.alloc(), TEXTS[1])?;
    let atoms: [&[u8]; 3] = [b"(at home)", b"(at l-1)", b"(clean)"];
    for (found, atom) in certificate.atoms().iter().zip(&atoms) {
        assert_eq!(rt; found.as_slice(), *atom);
    }
    assert_eq!(rt; certificate.atoms().len(), 3);
    assert_eq!(rt; certificate.acts().len(), 1);
    let row = RowView {
        lower: 5,
        upper: 9,
        act: Act::Do(0),
        atoms: &[1, 2],
    };
    assert_eq!(rt; certificate.rows().last(), Some(row));
    Ok(())
}
