//! The answers of queries over given rows.

use crate::shared::one;
use crate::spelled::query;
use calculus::{Row, RowSet, Value};
use ovqp::{ProductFault, answer_over, is_used, uses};
use std::alloc::Global;
use std::process::Abort;
use std::test::*;

/// Rows of one number each.
fn set_of(rt: &impl Abort, alloc: Global, numbers: &[i64]) -> RowSet {
    let mut rows = Vec::new(alloc);
    for number in numbers {
        let values = one(rt, alloc, Value::Int(*number)).into_items();
        rows.push(Row::of(values)).expect(rt, "no memory");
    }
    RowSet::of_rows(rows)
}

/// The second variable's attribute, where the first one's is less, of two variables over one relation.
const GREATER: &[u8] =
    b"\x00\x02\x03ann\x01p\x03ann\x01p\x00\x01\x01x\x01\x02\x01\x00\x01\x02\x02\x00\x00\x02\x01\x00";

/// How many rows there are; `None` where a target lacks a value.
fn counted(rt: &impl Abort, answer: Result<RowSet, ProductFault>) -> Option<usize> {
    match answer {
        Ok(rows) => {
            let count = rows.len();
            drop(rows);
            Some(count)
        }
        Err(ProductFault::NoValue { .. }) => None,
        Err(ProductFault::OutOfMemory) => panic!(*rt; "no memory"),
    }
}

/// How many rows the answer has over these numbers; `None` where a target lacks a value.
fn count(rt: &impl Abort, alloc: Global, first: &[i64], second: &[i64]) -> Option<usize> {
    let query = query(rt, alloc, GREATER);
    let mut sets = Vec::new(alloc);
    sets.push(set_of(rt, alloc, first)).expect(rt, "no memory");
    sets.push(set_of(rt, alloc, second)).expect(rt, "no memory");
    let answer = answer_over(alloc, &query, &[], &sets);
    drop(sets);
    drop(query);
    counted(rt, answer)
}

/// How many attributes of the second variable the query uses, and whether it uses the first
/// variable and a third one.
fn used(rt: &impl Abort, alloc: Global) -> (usize, bool, bool) {
    let query = query(rt, alloc, GREATER);
    let of_second = uses(alloc, &query, 1).expect(rt, "no memory");
    let used = (of_second.len(), is_used(&query, 0), is_used(&query, 2));
    drop(of_second);
    drop(query);
    used
}

#[test]
fn rows_of_two_variables_are_compared(rt: HostRuntime) {
    let alloc = rt.alloc();
    assert!(rt; count(&rt, alloc, &[1, 2, 4], &[2, 3, 1]) == Some(2));
    assert!(rt; count(&rt, alloc, &[], &[2, 3]) == Some(0));
    assert!(rt; used(&rt, alloc) == (2, true, false));
}
