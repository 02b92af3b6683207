//! The bytes of replies.

use calculus::{Column, List, OutOfMemory, Refusal, Reply, Row, Table};
use memory::both;
use monitor::{
    done_bytes, head_bytes, push_head, push_reply, push_row_line, push_rule, refusal_bytes,
    reply_bytes, row_line, rule_bytes,
};
use quel_tree::{ColumnsTree, RowTree, tree_of};
use std::alloc::Global;
use std::test::*;

/// Columns: of two-byte integers, of texts of three bytes, with a long title, and of wide numbers.
const COLUMNS: &[u8] = b"\x00\x04\x01a\x00\x01\x01b\x00\x03\x03\x0bdepartments\x00\x00\x01w\x01";

/// The rows of the table: -32768, `ab`, -5 and the least number; 7, the empty text, 127 and 0.
const FIRST: &[u8] =
    b"\x00\x04\x00\xff\xff\xff\xff\xff\xff\x80\x00\x01\x02ab\x00\xff\xff\xff\xff\xff\xff\xff\xfb\x00\x80\x00\x00\x00\x00\x00\x00\x00";

const SECOND: &[u8] =
    b"\x00\x04\x00\x00\x00\x00\x00\x00\x00\x00\x07\x01\x00\x00\x00\x00\x00\x00\x00\x00\x00\x7f\x00\x00\x00\x00\x00\x00\x00\x00\x00";

/// A column of four-byte integers, and the row of the least of them.
const ONE_COLUMN: &[u8] = b"\x00\x01\x01n\x00\x02";

const LEAST_ROW: &[u8] = b"\x00\x01\x00\xff\xff\xff\xff\x80\x00\x00\x00";

const HEAD: &[u8] =
    b"|a     |b  |departments|w                   |\n|------|---|-----------|--------------------|\n";

const RULE: &[u8] = b"|------|---|-----------|--------------------|\n";

const FIRST_ROW: &[u8] = b"|-32768|ab |         -5|-9223372036854775808|\n";

const TABLE: &[u8] = b"|a     |b  |departments|w                   |
|------|---|-----------|--------------------|
|-32768|ab |         -5|-9223372036854775808|
|     7|   |        127|                   0|
|------|---|-----------|--------------------|
";

/// Whether these bytes were made.
fn are(made: Result<Vec<u8>, OutOfMemory>, bytes: &[u8]) -> bool {
    match made {
        Ok(made) => {
            let same = made.as_slice() == bytes;
            drop(made);
            same
        }
        Err(_) => false,
    }
}

/// The columns that these bytes spell.
fn columns(alloc: Global, bytes: &[u8]) -> Result<List<Column>, OutOfMemory> {
    match tree_of::<ColumnsTree>(alloc, bytes) {
        Ok(columns) => Ok(columns),
        Err(_) => Err(OutOfMemory),
    }
}

/// The row that these bytes spell.
fn row(alloc: Global, bytes: &[u8]) -> Result<Row, OutOfMemory> {
    match tree_of::<RowTree>(alloc, bytes) {
        Ok(row) => Ok(row),
        Err(_) => Err(OutOfMemory),
    }
}

/// Puts the rows of the table.
fn push_rows(alloc: Global, rows: &mut Vec<Row>) -> Result<(), OutOfMemory> {
    rows.push(row(alloc, FIRST)?)?;
    rows.push(row(alloc, SECOND)?)?;
    Ok(())
}

/// The rows of the table.
fn rows(alloc: Global) -> Result<List<Row>, OutOfMemory> {
    let mut rows = Vec::new(alloc);
    push_rows(alloc, &mut rows)?;
    Ok(List::of(rows))
}

/// A table of two rows.
fn table(alloc: Global) -> Result<Table, OutOfMemory> {
    let (columns, rows) = both(columns(alloc, COLUMNS), rows(alloc))?;
    Ok(Table { columns, rows })
}

/// A reply with that table.
fn tables(alloc: Global) -> Result<Reply, OutOfMemory> {
    let mut tables = Vec::new(alloc);
    tables.push(table(alloc)?)?;
    Ok(Reply::Tables(List::of(tables)))
}

/// What that reply is printed as.
pub fn printed_tables(alloc: Global) -> Result<Vec<u8>, OutOfMemory> {
    let reply = tables(alloc)?;
    let bytes = reply_bytes(alloc, &reply);
    drop(reply);
    bytes
}

/// Whether the head, the rule and the first line of the table have these columns and this row.
fn parts_are(alloc: Global, columns: &[Column], row: &Row) -> (bool, bool, bool) {
    let head = are(head_bytes(alloc, columns), HEAD);
    let rule = are(rule_bytes(alloc, columns), RULE);
    (head, rule, are(row_line(alloc, columns, row), FIRST_ROW))
}

/// The same of its own columns and its first row.
fn has_parts(alloc: Global) -> (bool, bool, bool) {
    match both(columns(alloc, COLUMNS), row(alloc, FIRST)) {
        Ok((columns, row)) => {
            let parts = parts_are(alloc, columns.items(), &row);
            drop(row);
            drop(columns);
            parts
        }
        Err(_) => (false, false, false),
    }
}

/// Adds the parts of a table with a column and a row.
fn push_small(out: &mut Vec<u8>, columns: &[Column], row: &Row) -> Result<(), OutOfMemory> {
    push_head(out, columns)?;
    push_row_line(out, columns, row)?;
    push_rule(out, columns)
}

/// Adds the parts of a table with the row of the least number of four bytes.
fn push_least(alloc: Global, out: &mut Vec<u8>) -> Result<(), OutOfMemory> {
    let (columns, row) = both(columns(alloc, ONE_COLUMN), row(alloc, LEAST_ROW))?;
    let pushed = push_small(out, columns.items(), &row);
    drop(row);
    drop(columns);
    pushed
}

/// The parts of a table with that row.
fn small_table(alloc: Global) -> Result<Vec<u8>, OutOfMemory> {
    let mut out = Vec::new(alloc);
    push_least(alloc, &mut out)?;
    Ok(out)
}

/// An acknowledgement, and a refusal behind it.
fn done_and_refused(alloc: Global, refusal: Refusal) -> Result<Vec<u8>, OutOfMemory> {
    let mut out = reply_bytes(alloc, &Reply::Done)?;
    push_reply(&mut out, &Reply::Refused(refusal))?;
    Ok(out)
}

const LEAST: &[u8] = b"|n          |\n|-----------|\n|-2147483648|\n|-----------|\n";

const IN_USE: Refusal = Refusal {
    code: 25,
    line: 1,
    row: 0,
};

/// The number of a refusal, its line, its row, and what it is printed as.
const REFUSALS: [(u8, u32, u32, &[u8]); 5] = [
    (14, 10_001, 0, b"refused 14 line 10001: limit\n"),
    (2, 0, 0, b"refused 2 line 0: monitor command\n"),
    (31, 2, 17, b"refused 31 line 2: bad row 17\n"),
    (32, 1, 0, b"refused 32 line 1: no such file\n"),
    (4, 1, 0, b"refused 4 line 1: \n"),
];

/// Whether a refusal is printed as this text.
fn is_printed(alloc: Global, code: u8, line: u32, row: u32, text: &[u8]) -> bool {
    let refusal = Refusal { code, line, row };
    are(refusal_bytes(alloc, &refusal), text)
}

#[test]
fn replies_are_printed(rt: HostRuntime) {
    assert!(rt; has_parts(rt.alloc()) == (true, true, true));
    assert!(rt; are(printed_tables(rt.alloc()), TABLE));
    assert!(rt; are(small_table(rt.alloc()), LEAST));
    for (code, line, row, text) in &REFUSALS {
        assert!(rt; is_printed(rt.alloc(), *code, *line, *row, *text));
    }
    assert!(rt; are(done_bytes(rt.alloc()), b"done\n"));
    assert!(rt; are(reply_bytes(rt.alloc(), &Reply::Nothing), b""));
    let both = b"done\nrefused 25 line 1: in use\n";
    assert!(rt; are(done_and_refused(rt.alloc(), IN_USE), both));
}
