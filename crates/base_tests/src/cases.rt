//! Updates of the rows of a group and a share.

use crate::number_rows::row;
use crate::shared::tree;
use calculus::{Checked, Pair, Row};
use stage_proc::{PairFault, pairs_of};
use std::alloc::Global;
use std::process::Abort;
use test_bases::TestBase;

/// A heap of two numbers of two bytes, a group and a share, and the rows 1 and 10, 1 and 20, 2 and 5.
const SHARES: &[u8] =
    b"\x01\x03ann\x01p\x00\x00\x02\x01p\x00\x01\x01p\x00\x01\x00\x00\x00\x00\x00\x03\x00\x02\x00\x00\x00\x00\x00\x00\x00\x00\x01\x00\x00\x00\x00\x00\x00\x00\x00\x0a\x00\x02\x00\x00\x00\x00\x00\x00\x00\x00\x01\x00\x00\x00\x00\x00\x00\x00\x00\x14\x00\x02\x00\x00\x00\x00\x00\x00\x00\x00\x02\x00\x00\x00\x00\x00\x00\x00\x00\x05";

/// The pairs of the update that these bytes spell.
pub fn found(rt: &impl Abort, alloc: Global, update: &[u8]) -> Result<Vec<Pair>, PairFault> {
    let mut base = TestBase::of_entries(alloc, 1);
    assert!(rt; base.give(alloc, SHARES).is_ok());
    let tree = tree(rt, alloc, update);
    let pairs = match &tree {
        Checked::Update(update) => pairs_of(alloc, &mut base, update),
        _ => rt.abort(),
    };
    drop(tree);
    drop(base);
    pairs
}

/// The row of these numbers; none where there are none.
fn row_of(rt: &impl Abort, alloc: Global, numbers: &[i64]) -> Option<Row> {
    if numbers.is_empty() {
        None
    } else {
        Some(row(rt, alloc, numbers))
    }
}

/// The pairs of old and new rows of these numbers.
fn pairs(rt: &impl Abort, alloc: Global, numbers: &[(&[i64], &[i64])]) -> Vec<Pair> {
    let mut pairs = Vec::new(alloc);
    for (old, new) in numbers {
        let old = row_of(rt, alloc, old);
        let new = row_of(rt, alloc, new);
        pairs.push(Pair { old, new }).expect(rt, "memory");
    }
    pairs
}

/// Whether the update gives these pairs, in their order.
pub fn gives(rt: &impl Abort, alloc: Global, update: &[u8], numbers: &[(&[i64], &[i64])]) -> bool {
    let wanted = pairs(rt, alloc, numbers);
    let found = found(rt, alloc, update);
    let same = match &found {
        Ok(pairs) => pairs.as_slice() == wanted.as_slice(),
        Err(_) => false,
    };
    drop(found);
    drop(wanted);
    same
}
