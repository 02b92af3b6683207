// The bytes of a row.
use calculus::{Domain, OutOfMemory, Row, Text, Value};
use page_cells::{row_bytes, row_of};
use std::alloc::Global;
use std::process::Abort;
use std::test::*;

const COLUMNS: [Domain; 2] = [Domain::I2, Domain::C(4)];

/// The row of 7 and "ab" as bytes, in a buffer of eight, and whether those bytes are read as it.
fn there_and_back(alloc: Global, rt: &impl Abort) -> (usize, [u8; 8], bool) {
    let text = Text::of(alloc, b"ab").expect(rt, "memory");
    let text = text.expect(rt, "a text");
    assert!(rt; text.bytes().len() <= 4);
    let values = vec![in alloc; Value::Int(7), Value::Text(text)].expect(rt, "memory");
    let row = Row::of(values);
    let mut out = [9; 8];
    let count = row_bytes(&row, &COLUMNS, &mut out);
    let read = row_of(alloc, b"\x07\x00ab  ", &COLUMNS).expect(rt, "memory");
    let row = Some(row);
    let is_same = read == row;
    drop(read);
    drop(row);
    (count, out, is_same)
}

/// Whether these bytes are a row.
fn is_row(alloc: Global, rt: &impl Abort, bytes: &[u8]) -> bool {
    let row = row_of(alloc, bytes, &COLUMNS).expect(rt, "memory");
    let is_row = row.is_some();
    drop(row);
    is_row
}

const NO_ROWS: [&[u8]; 6] = [
    b"",
    b"\x07\x00ab ",
    b"\x07\x00ab   ",
    b"\x07\x00ab\x00\x00",
    b"\x07\x00a\x1f  ",
    b"\x07\x00a\x7f  ",
];

#[test]
fn a_row_stands_in_its_columns_and_other_bytes_are_no_row(rt: HostRuntime) {
    let (count, out, is_same) = there_and_back(rt.alloc(), &rt);
    assert!(rt; count == 6);
    assert!(rt; out.as_slice() == b"\x07\x00ab  \x09\x09".as_slice());
    assert!(rt; is_same);
    for bytes in &NO_ROWS {
        assert!(rt; !is_row(rt.alloc(), &rt, *bytes));
    }
}

/// The number in the only column of the row that bytes are; `None` where they are no row.
fn number_in(alloc: Global, bytes: &[u8], domain: Domain) -> Result<Option<i64>, OutOfMemory> {
    let row = row_of(alloc, bytes, &[domain])?;
    let number = match row.as_ref().map(|row| row.values()) {
        Some([Value::Int(number)]) => Some(*number),
        _ => None,
    };
    drop(row);
    Ok(number)
}

/// Bytes, the domain of their column, and the number that they are.
const NUMBERS: [(&[u8], Domain, i64); 6] = [
    (b"\x7f", Domain::I1, 127),
    (b"\x80", Domain::I1, -128),
    (b"\x00\x80", Domain::I2, -32768),
    (b"\x39\x30", Domain::I2, 12345),
    (b"\xfe\xff\xff\xff", Domain::I4, -2),
    (b"\x15\xcd\x5b\x07", Domain::I4, 123456789),
];

// Where memory is refused to it, this test ends with that status.
#[test]
fn numbers_are_read_in_twos_complement(rt: HostRuntime) -> Result<(), Fail> {
    for (bytes, domain, number) in &NUMBERS {
        assert!(rt; number_in(rt.alloc(), *bytes, *domain)? == Some(*number));
    }
    Ok(())
}
