use crate::number_rows::{alone, rows};
use crate::shared::tree;
use base_trait::BaseFault;
use calculus::{Checked, DbChange, Domain, Kind, OutOfMemory, Pair, RowSet, Update};
use decompose::QueryFault;
use stage_proc::{NewKinds, PairFault, pairs_of, pairs_over};
use std::alloc::Global;
use std::process::Abort;
use test_bases::TestBase;
use update_change::{UpdateFault, change_of};

/// Replaces of the number by 7, and by 70000.
const SEVEN: &[u8] =
    b"\x01\x01\x03ann\x01p\x00\x00\x01\x00\x00\x01\x03ann\x01p\x00\x01\x01x\x01\x00\x00\x00\x00\x00\x00\x00\x00\x07\x00\x00\x00\x00";

const LARGE: &[u8] =
    b"\x01\x01\x03ann\x01p\x00\x00\x01\x00\x00\x01\x03ann\x01p\x00\x01\x01x\x01\x00\x00\x00\x00\x00\x00\x01\x11p\x00\x00\x00\x00";

/// A delete of all rows.
const DELETE: &[u8] =
    b"\x01\x02\x03ann\x01p\x00\x00\x00\x00\x01\x03ann\x01p\x00\x00\x00\x00\x00\x00";

/// An append of the number 7, and an into.
const APPEND: &[u8] =
    b"\x01\x00\x03ann\x01p\x00\x00\x01\x00\x00\x01\x03ann\x01p\x00\x01\x01x\x01\x00\x00\x00\x00\x00\x00\x00\x00\x07\x00\x00\x00\x00";

const INTO: &[u8] =
    b"\x01\x03\x03ann\x01p\x00\x00\x01\x00\x00\x01\x03ann\x01p\x00\x01\x01x\x01\x00\x00\x00\x00\x00\x00\x00\x00\x07\x00\x00\x00\x00";

/// The update that the tree is.
fn updated<'a>(rt: &impl Abort, tree: &'a Checked) -> &'a Update {
    match tree {
        Checked::Update(update) => update,
        _ => rt.abort(),
    }
}

/// The kinds of one attribute of 16 bits.
fn small(rt: &impl Abort, alloc: Global) -> NewKinds {
    NewKinds {
        attributes: alone(rt, alloc, Kind::Of(Domain::I2)),
        wanted: alone(rt, alloc, Some(Kind::Of(Domain::I2))),
    }
}

/// How many pairs there are where these bytes spell a replace of two rows; `None` where a row doesn't fit.
fn replaced(rt: &impl Abort, alloc: Global, update: &[u8]) -> Option<usize> {
    let tree = tree(rt, alloc, update);
    let sets = alone(rt, alloc, RowSet::of_rows(rows(rt, alloc, &[&[1], &[2]])));
    let kinds = small(rt, alloc);
    let pairs = pairs_over(alloc, updated(rt, &tree), &[], &kinds, &sets);
    drop((tree, sets, kinds));
    match pairs {
        Ok(pairs) => Some(pairs.len()),
        Err(PairFault::NotFit { row: _ }) => None,
        Err(_) => Some(0),
    }
}

#[test]
fn each_row_is_replaced(rt: HostRuntime) {
    assert!(rt; replaced(&rt, rt.alloc(), SEVEN) == Some(2));
}

#[test]
fn a_number_that_is_too_large_does_not_fit(rt: HostRuntime) {
    assert!(rt; replaced(&rt, rt.alloc(), LARGE) == None);
}

/// Whether no memory was left.
fn is_want_of_memory(fault: &PairFault) -> bool {
    match fault {
        PairFault::OutOfMemory => true,
        PairFault::Query(QueryFault::OutOfMemory) => true,
        PairFault::Query(QueryFault::Base(BaseFault::OutOfMemory)) => true,
        _ => false,
    }
}

/// How many of three rows go where all are deleted.
fn deleted(rt: &impl Abort, alloc: Global) -> Result<usize, OutOfMemory> {
    let tree = tree(rt, alloc, DELETE);
    let mut base = TestBase::of_numbers(alloc, 3);
    let pairs = pairs_of(alloc, &mut base, updated(rt, &tree));
    drop(tree);
    drop(base);
    match pairs {
        Ok(pairs) => Ok(pairs.len()),
        Err(fault) if is_want_of_memory(&fault) => Err(OutOfMemory),
        Err(_) => Ok(0),
    }
}

#[test]
fn a_delete_reads_all_rows(rt: HostRuntime) {
    assert!(rt; deleted(&rt, rt.alloc()) == Ok(3));
}

/// Appends of the rows of these numbers.
fn appends(rt: &impl Abort, alloc: Global, numbers: &[&[i64]]) -> Vec<Pair> {
    let mut pairs = Vec::new(alloc);
    for row in rows(rt, alloc, numbers) {
        let pair = Pair {
            old: None,
            new: Some(row),
        };
        pairs.push(pair).expect(rt, "memory");
    }
    pairs
}

/// How many rows go and come where the rows of these numbers are put beside so many; `None` where
/// there are too many.
fn moved(
    rt: &impl Abort,
    alloc: Global,
    update: &[u8],
    rows: u32,
    numbers: &[&[i64]],
) -> Option<(usize, usize)> {
    let tree = tree(rt, alloc, update);
    let mut base = TestBase::of_numbers(alloc, rows);
    let pairs = appends(rt, alloc, numbers);
    let change = change_of(alloc, &mut base, updated(rt, &tree), pairs);
    drop(tree);
    drop(base);
    match &change {
        Ok(DbChange::Rows { remove, add, .. }) => Some((remove.items().len(), add.items().len())),
        Ok(DbChange::Create { rows, .. }) => Some((0, rows.items().len())),
        Err(UpdateFault::TooMany { rows: _ }) => None,
        _ => Some((9, 9)),
    }
}

#[test]
fn rows_that_are_there_do_not_come(rt: HostRuntime) {
    let numbers: [&[i64]; 4] = [&[1], &[4], &[3], &[4]];
    assert!(rt; moved(&rt, rt.alloc(), APPEND, 3, &numbers) == Some((0, 2)));
}

#[test]
fn a_new_relation_has_all_new_rows(rt: HostRuntime) {
    let numbers: [&[i64]; 4] = [&[1], &[4], &[3], &[4]];
    assert!(rt; moved(&rt, rt.alloc(), INTO, 3, &numbers) == Some((0, 3)));
}

#[test]
fn a_full_relation_takes_no_more(rt: HostRuntime) {
    assert!(rt; moved(&rt, rt.alloc(), APPEND, 100_000, &[&[100_000]]) == None);
    assert!(rt; moved(&rt, rt.alloc(), APPEND, 100_000, &[&[1]]) == Some((0, 0)));
}
