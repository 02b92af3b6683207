//! Qualifications that are joined.

use crate::view_queries::equal;
use crate::written::put_qual;
use calculus::{QQual, QTerm};
use std::alloc::Global;
use std::process::Abort;
use std::test::*;
use view_text::{all_of, any_of};

/// That each number below this one is equal to itself.
fn numbers(rt: &impl Abort, alloc: Global, count: u8) -> Vec<QQual> {
    let mut quals = Vec::new(alloc);
    for number in 0..count {
        let qual = equal(QTerm::Int(number as i64), QTerm::Int(number as i64));
        quals.push(qual).expect(rt, "memory");
    }
    quals
}

/// So many of them joined, all of which hold, or one of which.
fn joined(rt: &impl Abort, alloc: Global, count: u8, all: bool) -> QQual {
    let quals = numbers(rt, alloc, count);
    let qual = if all {
        all_of(alloc, quals)
    } else {
        any_of(alloc, quals)
    };
    qual.expect(rt, "memory")
}

fn written(rt: &impl Abort, alloc: Global, count: u8, all: bool) -> Vec<u8> {
    let qual = joined(rt, alloc, count, all);
    let mut written = Vec::new(alloc);
    put_qual(rt, &mut written, &qual);
    written
}

/// How many levels of joined qualifications there are.
fn levels(qual: &QQual) -> u64 {
    match qual {
        QQual::And(left, right) => levels(left.get())
            .max(levels(right.get()))
            .saturating_add(1),
        QQual::Or(left, right) => levels(left.get())
            .max(levels(right.get()))
            .saturating_add(1),
        _ => 0,
    }
}

/// The levels of so many joined, all of which hold, or one of which.
fn joined_levels(rt: &impl Abort, alloc: Global, count: u8, all: bool) -> u64 {
    let qual = joined(rt, alloc, count, all);
    levels(&qual)
}

#[test]
fn what_is_joined_has_few_levels(rt: HostRuntime) {
    let cases: [(u8, u64); 6] = [(0, 0), (1, 0), (2, 1), (3, 2), (100, 7), (128, 7)];
    for (count, levels) in &cases {
        assert!(rt; joined_levels(&rt, rt.alloc(), *count, true) == *levels);
        assert!(rt; joined_levels(&rt, rt.alloc(), *count, false) == *levels);
    }
}

#[test]
fn neighbours_are_joined(rt: HostRuntime) {
    let cases: [(u8, &[u8], &[u8]); 5] = [
        (0, b"true", b"!true"),
        (1, b"0=0", b"0=0"),
        (2, b"(0=0 & 1=1)", b"(0=0 | 1=1)"),
        (3, b"((0=0 & 1=1) & 2=2)", b"((0=0 | 1=1) | 2=2)"),
        (
            4,
            b"((0=0 & 1=1) & (2=2 & 3=3))",
            b"((0=0 | 1=1) | (2=2 | 3=3))",
        ),
    ];
    for (count, all, any) in &cases {
        assert!(rt; written(&rt, rt.alloc(), *count, true).as_slice() == *all);
        assert!(rt; written(&rt, rt.alloc(), *count, false).as_slice() == *any);
    }
}
