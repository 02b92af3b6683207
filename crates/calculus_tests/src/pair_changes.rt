//! The change that the pairs of an update make.

use crate::shared::{row, set};
use calculus::{Change, Pair, Row, RowSet, Value};
use std::alloc::Global;
use std::process::Abort;
use std::test::*;
use update_change::{ChangeFault, set_replace};

/// The numbers of an old row and of a new one; none where there is no such row.
type Numbers<'a> = (&'a [i64], &'a [i64]);

/// What came of an update.
#[derive(Clone, Copy, PartialEq, Eq)]
pub enum Outcome {
    /// A change by which so many rows come.
    Comes(usize),
    /// Rows are contended.
    Contended,
    /// So many rows would be too many.
    TooMany(u64),
    /// Memory was wanting.
    Wanting,
}

/// What came of an update.
pub fn outcome_of(made: &Result<Change, ChangeFault>) -> Outcome {
    match made {
        Ok(change) => Outcome::Comes(change.add.len()),
        Err(ChangeFault::Contended { .. }) => Outcome::Contended,
        Err(ChangeFault::TooMany { rows }) => Outcome::TooMany(*rows),
        Err(ChangeFault::OutOfMemory) => Outcome::Wanting,
    }
}

fn row_there(rt: &impl Abort, alloc: Global, numbers: &[i64]) -> Option<Row> {
    if numbers.is_empty() {
        None
    } else {
        Some(row(rt, alloc, numbers))
    }
}

/// Puts the pair of these numbers.
fn push_pair(rt: &impl Abort, alloc: Global, pairs: &mut Vec<Pair>, old: &[i64], new: &[i64]) {
    let old = row_there(rt, alloc, old);
    let new = row_there(rt, alloc, new);
    pairs.push(Pair { old, new }).expect(rt, "no memory");
}

/// What the pairs make of the rows.
fn made(
    rt: &impl Abort,
    alloc: Global,
    rows: &[&[i64]],
    numbers: &[Numbers<'_>],
) -> Result<Change, ChangeFault> {
    let rows = set(rt, alloc, rows);
    let mut pairs = Vec::new(alloc);
    for (old, new) in numbers {
        push_pair(rt, alloc, &mut pairs, *old, *new);
    }
    let made = set_replace(alloc, &rows, &pairs);
    drop(pairs);
    drop(rows);
    made
}

/// Whether these rows go, and those come.
fn moves(made: &Result<Change, ChangeFault>, remove: &RowSet, add: &RowSet) -> bool {
    match made {
        Ok(change) => change.remove == *remove && change.add == *add,
        Err(_) => false,
    }
}

/// Whether the pairs make this change of the rows.
fn is_changed(
    rt: &impl Abort,
    alloc: Global,
    rows: &[&[i64]],
    numbers: &[Numbers<'_>],
    moved: (&[&[i64]], &[&[i64]]),
) -> bool {
    let made = made(rt, alloc, rows, numbers);
    let remove = set(rt, alloc, moved.0);
    let add = set(rt, alloc, moved.1);
    let moves = moves(&made, &remove, &add);
    drop(add);
    drop(remove);
    drop(made);
    moves
}

/// Whether the row has this number alone.
fn is_row(row: &Row, number: i64) -> bool {
    match row.values() {
        [Value::Int(value)] => *value == number,
        _ => false,
    }
}

/// Whether this old row is contended by these two new ones of it.
fn contends(made: &Result<Change, ChangeFault>, [old, first, second]: [i64; 3]) -> bool {
    match made {
        Err(
            ChangeFault::Contended {
                old: contended,
                first: one,
                second: other,
            },
        ) => is_row(contended, old) && is_row(one, first) && is_row(other, second),
        _ => false,
    }
}

/// Whether these replacements of rows are refused for this old row and these two new ones of it.
fn is_contended(
    rt: &impl Abort,
    alloc: Global,
    rows: &[&[i64]],
    numbers: &[Numbers<'_>],
    wanted: [i64; 3],
) -> bool {
    let made = made(rt, alloc, rows, numbers);
    let contends = contends(&made, wanted);
    drop(made);
    contends
}

/// What comes of it where so many rows are appended to none.
fn appended(rt: &impl Abort, alloc: Global, count: i64) -> Outcome {
    let rows = RowSet::new(alloc);
    let mut pairs = Vec::new(alloc);
    for number in 0..count {
        push_pair(rt, alloc, &mut pairs, &[], &[number]);
    }
    let made = set_replace(alloc, &rows, &pairs);
    drop(pairs);
    drop(rows);
    let outcome = outcome_of(&made);
    drop(made);
    outcome
}

/// Two rows that are swapped.
const SWAPPED: [Numbers<'static>; 2] = [(&[1, 2], &[2, 1]), (&[2, 1], &[1, 2])];

/// Row 1 becomes 2, twice; row 2 goes, but comes back from row 1; row 3 goes and becomes 7; row 4 is put
/// again, and row 6 is put.
static MOVES: [Numbers<'static>; 7] = [
    (&[1], &[2]),
    (&[2], &[]),
    (&[3], &[7]),
    (&[3], &[]),
    (&[1], &[2]),
    (&[], &[4]),
    (&[], &[6]),
];

/// Rows that are replaced, by different ones.
static REPLACED: [Numbers<'static>; 6] = [
    (&[8], &[2]),
    (&[5], &[9]),
    (&[1], &[2]),
    (&[5], &[3]),
    (&[8], &[1]),
    (&[5], &[7]),
];

#[test]
fn rows_are_swapped_and_go_and_come(rt: HostRuntime) {
    let swapped: [&[i64]; 2] = [&[1, 2], &[2, 1]];
    assert!(rt; is_changed(&rt, rt.alloc(), &swapped, &SWAPPED, (&[], &[])));
    let rows: [&[i64]; 4] = [&[1], &[2], &[3], &[4]];
    let moved: (&[&[i64]], &[&[i64]]) = (&[&[1], &[3]], &[&[6], &[7]]);
    assert!(rt; is_changed(&rt, rt.alloc(), &rows, &MOVES, moved));
}

#[test]
fn different_new_rows_and_too_many_rows_are_refused(rt: HostRuntime) {
    let rows: [&[i64]; 3] = [&[1], &[5], &[8]];
    assert!(rt; is_contended(&rt, rt.alloc(), &rows, &REPLACED, [5, 3, 7]));
    assert!(rt; appended(&rt, rt.alloc(), 100_001) == Outcome::TooMany(100_001));
    assert!(rt; appended(&rt, rt.alloc(), 100_000) == Outcome::Comes(100_000));
}
