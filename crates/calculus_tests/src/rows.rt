//! Sets of rows.

use crate::shared::{is_copied, row, rows, set};
use calculus::{Row, RowSet};
use std::alloc::Global;
use std::process::Abort;
use std::test::*;

/// Whether a set of these rows has those, in this order, and its copy too.
fn has_rows(rt: &impl Abort, alloc: Global, lists: &[&[i64]], sorted: &[&[i64]]) -> bool {
    let set = set(rt, alloc, lists);
    let sorted = rows(rt, alloc, sorted);
    let same = set.rows() == sorted.as_slice();
    drop(sorted);
    is_copied(rt, alloc, set) && same
}

/// Puts a row of this number into the set, and gives whether it was new.
fn put(rt: &impl Abort, alloc: Global, set: &mut RowSet, number: i64) -> bool {
    match set.insert(row(rt, alloc, &[number])) {
        Ok(new) => new,
        Err(_) => panic!(*rt; "no memory"),
    }
}

/// Puts the rows of so many numbers from 0 on into the set, and gives whether each was new.
fn put_many(rt: &impl Abort, alloc: Global, set: &mut RowSet, count: i64) -> bool {
    let mut new = true;
    for number in 0..count {
        new = put(rt, alloc, set, number) && new;
    }
    new
}

/// The rows of so many numbers from 0 on, the last one first.
fn falling(rt: &impl Abort, alloc: Global, count: i64) -> Vec<Row> {
    let mut rows = Vec::new(alloc);
    for number in 0..count {
        rows.push(row(rt, alloc, &[number])).expect(rt, "no memory");
    }
    rows.reverse();
    rows
}

/// Whether rows that are put one by one are new once, and make the set of all of them.
fn are_put_once(rt: &impl Abort, alloc: Global, count: i64) -> bool {
    let mut set = RowSet::new(alloc);
    let new = put_many(rt, alloc, &mut set, count) && !put(rt, alloc, &mut set, 1);
    let all = RowSet::of_rows(falling(rt, alloc, count));
    let same = set == all;
    drop(all);
    drop(set);
    new && same
}

#[test]
fn sets_hold_each_row_once_and_in_order(rt: HostRuntime) {
    let lists: [&[i64]; 7] = [&[3], &[1, 2], &[3], &[2, 0], &[1], &[-5], &[1, 1]];
    let sorted: [&[i64]; 6] = [&[-5], &[1], &[1, 1], &[1, 2], &[2, 0], &[3]];
    assert!(rt; has_rows(&rt, rt.alloc(), &lists, &sorted));
    assert!(rt; are_put_once(&rt, rt.alloc(), 2_000));
}
