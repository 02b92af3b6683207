use crate::number_rows::rows;
use crate::shared::{query, tree};
use calculus::{Checked, List, RowSet, SortKey, Table};
use decompose::{QueryFault, answer};
use stage_proc::{sorted, tables_of};
use std::alloc::Global;
use std::process::Abort;
use test_bases::TestBase;

/// The number of the second of two variables, and an attribute of it that isn't there.
const NUMBER: &[u8] = b"\x00\x02\x03ann\x01p\x03ann\x01p\x00\x01\x01x\x01\x02\x01\x00\x00";

const NO_NUMBER: &[u8] = b"\x00\x02\x03ann\x01p\x03ann\x01p\x00\x01\x01x\x01\x02\x01\x01\x00";

/// The queries for the number, one under the title x and sorted up, one under y and sorted down.
const UP_AND_DOWN: &[u8] =
    b"\x00\x00\x02\x00\x01\x03ann\x01p\x00\x01\x01x\x01\x02\x00\x00\x00\x00\x01\x00\x00\x00\x00\x01\x03ann\x01p\x00\x01\x01y\x01\x02\x00\x00\x00\x00\x01\x00\x00\x01";

/// How many rows there are; `None` where a target has no value.
fn row_count(answer: &Result<RowSet, QueryFault>) -> Option<usize> {
    match answer {
        Ok(rows) => Some(rows.len()),
        Err(QueryFault::NoValue { at: _ }) => None,
        Err(_) => Some(0),
    }
}

/// How many rows there are of a query over the numbers 0 to 2; `None` where a target has no value.
fn answered(rt: &impl Abort, alloc: Global, bytes: &[u8]) -> Option<usize> {
    let q = query(rt, alloc, bytes);
    let mut base = TestBase::of_numbers(alloc, 3);
    let answer = answer(alloc, &mut base, &q, &[]);
    drop(base);
    drop(q);
    let count = row_count(&answer);
    drop(answer);
    count
}

/// Whether the rows of these numbers stand so where the first column is sorted down, the second up.
fn stand_so(rt: &impl Abort, alloc: Global, given: &[&[i64]], wanted: &[&[i64]]) -> bool {
    let down = SortKey {
        column: 0,
        down: true,
    };
    let up = SortKey {
        column: 1,
        down: false,
    };
    let set = RowSet::of_rows(rows(rt, alloc, given));
    let found = sorted(set.into_rows(), &[down, up]);
    let wanted = rows(rt, alloc, wanted);
    let same = found.as_slice() == wanted.as_slice();
    drop(wanted);
    drop(found);
    same
}

/// The tables of two queries, one up and one down.
fn two_tables(rt: &impl Abort, alloc: Global) -> List<Table> {
    let tree = tree(rt, alloc, UP_AND_DOWN);
    let mut base = TestBase::of_numbers(alloc, 3);
    let tables = match &tree {
        Checked::Answer(all) => tables_of(alloc, &mut base, all.items()),
        _ => rt.abort(),
    };
    drop(base);
    drop(tree);
    tables.ok().expect(rt, "tables")
}

/// Whether the table has this title above these rows.
fn shows(rt: &impl Abort, alloc: Global, table: &Table, title: &[u8], numbers: &[&[i64]]) -> bool {
    let titled = match table.columns.items().first() {
        Some(column) => column.name.bytes() == title,
        None => false,
    };
    let rows = rows(rt, alloc, numbers);
    let same = table.rows.items() == rows.as_slice();
    drop(rows);
    titled && same
}

/// Whether these are two tables, one up and one down.
fn are_both(rt: &impl Abort, alloc: Global, tables: &[Table]) -> bool {
    match tables {
        [up, down] => {
            shows(rt, alloc, up, b"x", &[&[0], &[1], &[2]])
                && shows(rt, alloc, down, b"y", &[&[2], &[1], &[0]])
        }
        _ => false,
    }
}

/// Whether each of two queries has its table.
fn both_show(rt: &impl Abort, alloc: Global) -> bool {
    let tables = two_tables(rt, alloc);
    let both = are_both(rt, alloc, tables.items());
    drop(tables);
    both
}

#[test]
fn an_answer_reads_what_is_used_and_each_query_has_its_table(rt: HostRuntime) {
    assert!(rt; answered(&rt, rt.alloc(), NUMBER) == Some(3));
    // An attribute that isn't there has no value.
    assert!(rt; answered(&rt, rt.alloc(), NO_NUMBER) == None);
    // The first column is the weightiest.
    let given: [&[i64]; 3] = [&[1, 3], &[2, 1], &[1, 2]];
    let wanted: [&[i64]; 3] = [&[2, 1], &[1, 2], &[1, 3]];
    assert!(rt; stand_so(&rt, rt.alloc(), &given, &wanted));
    assert!(rt; both_show(&rt, rt.alloc()));
}
