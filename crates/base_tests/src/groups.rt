use crate::shared::query;
use crate::shown::put;
use aggregates::settle;
use calculus::{AggOp, AggTable, Query, Value};
use quel_tree::{QueryTree, tree_of};
use std::alloc::Global;
use std::process::Abort;
use std::test::*;
use test_bases::TestBase;

/// The number of a row, and its text.
pub(crate) const NUMBER: &[u8] = b"\x02\x00\x00";

pub(crate) const TEXT: &[u8] = b"\x02\x00\x01";

/// The number and the text added up, which is nothing.
pub(crate) const SUM: &[u8] = b"\x05\x00\x02\x00\x00\x02\x00\x01";

/// The number divided by itself less 1, which is nothing where it is 1.
pub(crate) const SHARE: &[u8] =
    b"\x05\x03\x02\x00\x00\x05\x01\x02\x00\x00\x00\x00\x00\x00\x00\x00\x00\x00\x01";

/// The relation, and the texts of its rows, as texts of one byte and as numbers.
pub(crate) const RELATION: &[u8] = b"\x00\x03ann\x01p";

pub(crate) const TEXTS: &[u8] =
    b"\x01\x00\x01\x03ann\x01p\x00\x01\x01t\x00\x03\x01\x02\x00\x01\x00";

pub(crate) const WIDE_TEXTS: &[u8] = b"\x01\x00\x01\x03ann\x01p\x00\x01\x01t\x01\x02\x00\x01\x00";

/// Three rows: 1 and `b`, 1 and `a`, 2 and `c`.
const ROWS: &[u8] =
    b"\x00\x03ann\x01p\x00\x00\x00\x00\x00\x00\x00\x03\x00\x02\x00\x00\x00\x00\x00\x00\x00\x00\x01\x01\x01b\x00\x02\x00\x00\x00\x00\x00\x00\x00\x00\x01\x01\x01a\x00\x02\x00\x00\x00\x00\x00\x00\x00\x00\x02\x01\x01c";

/// The base of these rows, of which no database is known.
pub(crate) fn shelf(rt: &impl Abort, alloc: Global) -> TestBase {
    let mut base = TestBase::of_entries(alloc, 1);
    assert!(rt; base.give(alloc, ROWS).is_ok());
    base
}

/// The aggregate of an operation on a term over the rows of a source whose number is at most this, by these
/// terms.
#[derive(Clone, Copy)]
pub(crate) struct Folded<'a> {
    pub(crate) op: AggOp,
    pub(crate) source: &'a [u8],
    pub(crate) arg: &'a [u8],
    pub(crate) by: &'a [&'a [u8]],
    pub(crate) most: u8,
}

/// The byte of an operation.
fn byte_of(op: AggOp) -> u8 {
    match op {
        AggOp::Count => 0,
        AggOp::Countu => 1,
        AggOp::Sum => 2,
        AggOp::Sumu => 3,
        AggOp::Avg => 4,
        AggOp::Avgu => 5,
        AggOp::Min => 6,
        AggOp::Max => 7,
        AggOp::Any => 8,
    }
}

/// Puts the terms of the by-list, and a 1 as a link for each of them.
fn put_lists(rt: &impl Abort, written: &mut Vec<u8>, by: &[&[u8]]) {
    let count = u8::try_from(by.len()).unwrap_or(255);
    put(rt, written, &[0, count]);
    for term in by {
        put(rt, written, *term);
    }
    put(rt, written, &[0, count]);
    for _ in by {
        put(rt, written, &[0, 0, 0, 0, 0, 0, 0, 0, 1]);
    }
}

/// The bytes of the query of the relation for the aggregate.
fn spelled(rt: &impl Abort, alloc: Global, folded: Folded) -> Vec<u8> {
    let mut bytes = Vec::new(alloc);
    put(
        rt,
        &mut bytes,
        b"\x00\x01\x03ann\x01p\x00\x01\x01x\x01\x07\x00\x00",
    );
    put(rt, &mut bytes, &[byte_of(folded.op)]);
    put(rt, &mut bytes, folded.source);
    put(rt, &mut bytes, folded.arg);
    put_lists(rt, &mut bytes, folded.by);
    put(
        rt,
        &mut bytes,
        &[1, 3, 2, 0, 0, 0, 0, 0, 0, 0, 0, 0, 0, folded.most, 0],
    );
    bytes
}

/// The one table of a query for the aggregate.
pub(crate) fn table_of(rt: &impl Abort, alloc: Global, folded: Folded) -> AggTable {
    let bytes = spelled(rt, alloc, folded);
    let q = query(rt, alloc, &bytes);
    drop(bytes);
    let mut base = shelf(rt, alloc);
    let tables = settle(alloc, &mut base, &q);
    drop(base);
    drop(q);
    let mut tables = tables.ok().expect(rt, "tables");
    let table = tables.pop();
    drop(tables);
    table.expect(rt, "a table")
}

fn number_of(value: &Value) -> Option<i64> {
    match value {
        Value::Int(number) => Some(*number),
        Value::Text(_) => None,
    }
}

/// The numbers of the by-values and of the values of the groups, one behind the other; 99 where a
/// group has no value, 98 where one isn't a number.
fn numbers(rt: &impl Abort, alloc: Global, table: &AggTable) -> Vec<i64> {
    let mut numbers = Vec::new(alloc);
    for (by, value) in table.groups.items() {
        let first = by.values().first().expect(rt, "a by-value");
        numbers
            .push(number_of(first).unwrap_or(98))
            .expect(rt, "memory");
        let number = match value {
            Some(value) => number_of(value).unwrap_or(98),
            None => 99,
        };
        numbers.push(number).expect(rt, "memory");
    }
    numbers
}

/// Whether the groups of the aggregate have these numbers.
fn gives(
    rt: &impl Abort,
    alloc: Global,
    op: AggOp,
    (arg, by): (&[u8], &[u8]),
    most: u8,
    wanted: &[i64],
) -> bool {
    let folded = Folded {
        op,
        source: RELATION,
        arg,
        by: &[by],
        most,
    };
    let table = table_of(rt, alloc, folded);
    let found = numbers(rt, alloc, &table);
    drop(table);
    let same = found.as_slice() == wanted;
    drop(found);
    same
}

/// An operation, its term and its by-term, the greatest number of a row, and the groups.
type Case = (AggOp, (&'static [u8], &'static [u8]), u8, &'static [i64]);

/// Groups of the rows whose number is at most 9, or 1.
static GROUPS: [Case; 5] = [
    (AggOp::Count, (NUMBER, NUMBER), 9, &[1, 2, 2, 1]),
    (AggOp::Countu, (NUMBER, NUMBER), 9, &[1, 1, 2, 1]),
    (AggOp::Sum, (NUMBER, NUMBER), 9, &[1, 2, 2, 2]),
    // The inner qualification leaves out the row of 2.
    (AggOp::Count, (NUMBER, NUMBER), 1, &[1, 2]),
    (AggOp::Count, (NUMBER, NUMBER), 0, &[]),
];

/// An argument without value leaves its whole group without one.
static NO_ARGUMENT: [Case; 10] = [
    (AggOp::Count, (SHARE, NUMBER), 9, &[1, 99, 2, 1]),
    (AggOp::Countu, (SHARE, NUMBER), 9, &[1, 99, 2, 1]),
    (AggOp::Sum, (SHARE, NUMBER), 9, &[1, 99, 2, 2]),
    (AggOp::Sumu, (SHARE, NUMBER), 9, &[1, 99, 2, 2]),
    (AggOp::Avg, (SHARE, NUMBER), 9, &[1, 99, 2, 2]),
    (AggOp::Avgu, (SHARE, NUMBER), 9, &[1, 99, 2, 2]),
    (AggOp::Min, (SHARE, NUMBER), 9, &[1, 99, 2, 2]),
    (AggOp::Max, (SHARE, NUMBER), 9, &[1, 99, 2, 2]),
    (AggOp::Any, (SHARE, NUMBER), 9, &[1, 99, 2, 1]),
    (AggOp::Any, (SUM, NUMBER), 9, &[1, 99, 2, 99]),
];

/// A row with a by-value without value is in no group.
static NO_BY_VALUE: [Case; 10] = [
    (AggOp::Count, (NUMBER, SHARE), 9, &[2, 1]),
    (AggOp::Countu, (NUMBER, SHARE), 9, &[2, 1]),
    (AggOp::Sum, (NUMBER, SHARE), 9, &[2, 2]),
    (AggOp::Sumu, (NUMBER, SHARE), 9, &[2, 2]),
    (AggOp::Avg, (NUMBER, SHARE), 9, &[2, 2]),
    (AggOp::Avgu, (NUMBER, SHARE), 9, &[2, 2]),
    (AggOp::Min, (NUMBER, SHARE), 9, &[2, 2]),
    (AggOp::Max, (NUMBER, SHARE), 9, &[2, 2]),
    (AggOp::Any, (NUMBER, SHARE), 9, &[2, 1]),
    (AggOp::Count, (NUMBER, SUM), 9, &[]),
];

/// Whether the groups of each of these are those.
fn all_give(rt: &impl Abort, alloc: Global, cases: &[Case]) -> bool {
    for (op, terms, most, wanted) in cases {
        if !gives(rt, alloc, *op, *terms, *most, *wanted) {
            return false;
        }
    }
    true
}

#[test]
fn groups_are_those_of_the_rows_that_are_folded(rt: HostRuntime) {
    assert!(rt; all_give(&rt, rt.alloc(), &GROUPS));
    assert!(rt; all_give(&rt, rt.alloc(), &NO_ARGUMENT));
    assert!(rt; all_give(&rt, rt.alloc(), &NO_BY_VALUE));
}

/// The number of the rows of a query of each number, which is its text and so above every number.
const OF_TEXTS: Folded = Folded {
    op: AggOp::Count,
    source: WIDE_TEXTS,
    arg: NUMBER,
    by: &[NUMBER],
    most: 9,
};

/// How many groups there are.
fn count_of_groups(rt: &impl Abort, alloc: Global, folded: Folded) -> usize {
    let table = table_of(rt, alloc, folded);
    let count = table.groups.items().len();
    drop(table);
    count
}

#[test]
fn the_rows_of_a_query_are_its_targets(rt: HostRuntime) {
    // A text is above every number, so the inner qualification leaves all out.
    assert!(rt; count_of_groups(&rt, rt.alloc(), OF_TEXTS) == 0);
}
