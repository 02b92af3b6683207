//! What is looked up in the tables of aggregates: by the numbers and the texts of rows, or by nothing.

use crate::groups::{Folded, NUMBER, RELATION, SHARE, TEXT, TEXTS, WIDE_TEXTS, table_of};
use calculus::{AggOp, Text, Value};
use std::alloc::Global;
use std::process::Abort;
use std::test::*;

/// What was found: 99 no group, 98 one without value, 97 one whose value is a text; else its number.
fn said(found: Option<&Option<Value>>) -> i64 {
    match found {
        None => 99,
        Some(None) => 98,
        Some(Some(Value::Text(_))) => 97,
        Some(Some(Value::Int(number))) => *number,
    }
}

/// What an operation gives for all rows together whose number is at most this.
fn whole(rt: &impl Abort, alloc: Global, op: AggOp, arg: &[u8], most: u8) -> i64 {
    let folded = Folded {
        op,
        source: RELATION,
        arg,
        by: &[],
        most,
    };
    let table = table_of(rt, alloc, folded);
    let said = said(table.groups.get(&[]));
    drop(table);
    said
}

/// An operation, its term, the greatest number of a row, and what it gives.
const WHOLE: [(AggOp, &[u8], u8, i64); 9] = [
    (AggOp::Count, NUMBER, 9, 3),
    (AggOp::Countu, NUMBER, 9, 2),
    (AggOp::Sum, NUMBER, 9, 4),
    (AggOp::Sumu, NUMBER, 9, 3),
    (AggOp::Avg, NUMBER, 9, 1),
    (AggOp::Max, NUMBER, 1, 1),
    (AggOp::Max, TEXT, 9, 97),
    (AggOp::Count, SHARE, 9, 98),
    (AggOp::Count, SHARE, 0, 99),
];

/// The values of a row of a number and a text.
fn values(rt: &impl Abort, alloc: Global, number: i64, bytes: &[u8]) -> Vec<Value> {
    let text = Text::of(alloc, bytes).expect(rt, "memory");
    let mut values = Vec::new(alloc);
    values.push(Value::Int(number)).expect(rt, "memory");
    values
        .push(Value::Text(text.expect(rt, "a text")))
        .expect(rt, "memory");
    values
}

/// The number of the rows of each number and text.
const OF_BOTH: Folded = Folded {
    op: AggOp::Count,
    source: RELATION,
    arg: NUMBER,
    by: &[NUMBER, TEXT],
    most: 9,
};

/// How many rows have this number and this text.
fn counted(rt: &impl Abort, alloc: Global, number: i64, bytes: &[u8]) -> i64 {
    let table = table_of(rt, alloc, OF_BOTH);
    let values = values(rt, alloc, number, bytes);
    let said = said(table.groups.get(&values));
    drop(values);
    drop(table);
    said
}

/// A number, a text, and how many rows have both. The groups are at 1 and `a`, 1 and `b`, 2 and `c`.
const COUNTED: [(i64, &[u8], i64); 8] = [
    (1, b"a", 1),
    (1, b"b", 1),
    (2, b"c", 1),
    (1, b"", 99),
    (1, b"aa", 99),
    (1, b"c", 99),
    (2, b"b", 99),
    (3, b"a", 99),
];

#[test]
fn groups_are_found_by_all_their_values_in_common(rt: HostRuntime) {
    for (op, arg, most, wanted) in &WHOLE {
        assert!(rt; whole(&rt, rt.alloc(), *op, *arg, *most) == *wanted);
    }
    for (number, bytes, wanted) in &COUNTED {
        assert!(rt; counted(&rt, rt.alloc(), *number, *bytes) == *wanted);
    }
}

/// What an operation on the rows of a query gives where there are none: 97 the empty text, 96 another one;
/// else a number.
fn empty(rt: &impl Abort, alloc: Global, op: AggOp, source: &[u8]) -> i64 {
    let folded = Folded {
        op,
        source,
        arg: NUMBER,
        by: &[],
        most: 9,
    };
    let table = table_of(rt, alloc, folded);
    let said = match &table.empty {
        Value::Int(number) => *number,
        Value::Text(text) => { if text.bytes().is_empty() { 97 } else { 96 } }
    };
    drop(table);
    said
}

/// An operation, whether it is on texts, and what it makes of none.
const EMPTY: [(AggOp, bool, i64); 11] = [
    (AggOp::Count, true, 0),
    (AggOp::Countu, true, 0),
    (AggOp::Any, true, 0),
    (AggOp::Min, true, 97),
    (AggOp::Max, true, 97),
    (AggOp::Sum, false, 0),
    (AggOp::Sumu, false, 0),
    (AggOp::Avg, false, 0),
    (AggOp::Avgu, false, 0),
    (AggOp::Min, false, 0),
    (AggOp::Max, false, 0),
];

#[test]
fn the_least_and_the_greatest_of_no_texts_is_the_empty_text(rt: HostRuntime) {
    for (op, is_text, wanted) in &EMPTY {
        let source = if *is_text { TEXTS } else { WIDE_TEXTS };
        assert!(rt; empty(&rt, rt.alloc(), *op, source) == *wanted);
    }
}
