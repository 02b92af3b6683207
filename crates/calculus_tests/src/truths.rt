//! The truth of qualifications.

use crate::spelled::{put, put_comparison, query_where};
use calculus::CmpOp;
use scalar_eval::{Assigned, holds};
use std::alloc::Global;
use std::process::Abort;
use std::test::*;

/// Whether the qualification that these bytes spell holds over no rows.
fn held(rt: &impl Abort, alloc: Global, qual: &[u8]) -> bool {
    let query = query_where(rt, alloc, qual);
    let rows = Assigned::new(alloc);
    let held = holds(alloc, &query.qual, &rows, &[]).expect(rt, "no memory");
    drop(rows);
    drop(query);
    held
}

/// Whether 6 divided by a number compares so with another, behind these negations.
fn compared_behind(
    rt: &impl Abort,
    alloc: Global,
    negations: &[u8],
    op: CmpOp,
    (divisor, right): (i64, i64),
) -> bool {
    let mut qual = Vec::new(alloc);
    put(rt, &mut qual, negations);
    put_comparison(rt, &mut qual, op, divisor, right);
    let held = held(rt, alloc, &qual);
    drop(qual);
    held
}

/// Whether 6 divided by a number compares so with another, and whether it is denied that it does.
fn compared(rt: &impl Abort, alloc: Global, op: CmpOp, divisor: i64, right: i64) -> (bool, bool) {
    let plain = compared_behind(rt, alloc, b"", op, (divisor, right));
    (
        plain,
        compared_behind(rt, alloc, b"\x05", op, (divisor, right)),
    )
}

/// Whether the true qualification behind 500 negations holds.
fn deep_holds(rt: &impl Abort, alloc: Global) -> bool {
    let mut qual = Vec::new(alloc);
    put(rt, &mut qual, &[5; 500]);
    put(rt, &mut qual, b"\x00");
    let held = held(rt, alloc, &qual);
    drop(qual);
    held
}

/// A comparison, the divisor of 6, the number to the right, and whether it holds.
const COMPARED: [(CmpOp, i64, i64, bool); 8] = [
    (CmpOp::Eq, 1, 6, true),
    (CmpOp::Ne, 1, 6, false),
    (CmpOp::Lt, 2, 4, true),
    (CmpOp::Le, 2, 3, true),
    (CmpOp::Gt, 2, 3, false),
    (CmpOp::Ge, 2, 3, true),
    (CmpOp::Eq, 0, 6, false),
    (CmpOp::Ne, 0, 6, false),
];

#[test]
fn comparisons_without_a_value_are_false_and_500_levels_hold(rt: HostRuntime) {
    for (op, divisor, right, holding) in &COMPARED {
        assert!(rt; compared(&rt, rt.alloc(), *op, *divisor, *right) == (*holding, !*holding));
    }
    assert!(rt; deep_holds(&rt, rt.alloc()));
}
