//! Queries with the views in them expanded, unrestricted.

use crate::shared::{query, unknown};
use crate::shown::{put, put_query};
use crate::view_texts::LAID;
use cut_rules::{ExpandFault, expand};
use std::alloc::Global;
use std::process::Abort;
use std::test::*;
use test_bases::TestBase;

/// The view `sums` of the sum of the first attributes of ten variables over `parts`.
const SUMS: &[u8] =
    b"\x05\x03ann\x04sums\x03\x00\x01\x04pnum\x01\x00\x00\x00\x0a\x03ann\x05parts\x03ann\x05parts\x03ann\x05parts\x03ann\x05parts\x03ann\x05parts\x03ann\x05parts\x03ann\x05parts\x03ann\x05parts\x03ann\x05parts\x03ann\x05parts\x00\x01\x04pnum\x01\x05\x00\x05\x00\x05\x00\x05\x00\x05\x00\x05\x00\x05\x00\x05\x00\x05\x00\x05\x00\x00\x00\x00\x00\x00\x00\x00\x00\x00\x02\x00\x00\x02\x01\x00\x02\x02\x00\x02\x03\x00\x02\x04\x00\x02\x05\x00\x02\x06\x00\x02\x07\x00\x02\x08\x00\x02\x09\x00\x00";

/// The sum of the first attributes of five variables over `sums`, where `parts` is listed behind them.
const OF_FIVE: &[u8] =
    b"\x00\x06\x03ann\x04sums\x03ann\x04sums\x03ann\x04sums\x03ann\x04sums\x03ann\x04sums\x03ann\x05parts\x00\x01\x04pnum\x01\x05\x00\x05\x00\x05\x00\x05\x00\x05\x00\x00\x00\x00\x00\x00\x00\x00\x00\x00\x02\x00\x00\x02\x01\x00\x02\x02\x00\x02\x03\x00\x02\x04\x00\x00";

/// And that of `parts`.
const OF_SIX: &[u8] =
    b"\x00\x06\x03ann\x04sums\x03ann\x04sums\x03ann\x04sums\x03ann\x04sums\x03ann\x04sums\x03ann\x05parts\x00\x01\x04pnum\x01\x05\x00\x05\x00\x05\x00\x05\x00\x05\x00\x05\x00\x00\x00\x00\x00\x00\x00\x00\x00\x00\x02\x00\x00\x02\x01\x00\x02\x02\x00\x02\x03\x00\x02\x04\x00\x02\x05\x00\x00";

/// A base of which no database is known and knows `parts` and its views, and `sums`.
fn unknown_sums<R: Abort>(rt: &R, alloc: Global) -> TestBase {
    let mut base = unknown(rt, alloc, &LAID);
    let given = base.give(alloc, SUMS);
    assert!(rt; given.is_ok());
    base
}

/// How many variables a query has once its views are expanded, or would have, where they are too many.
fn expanded<R: Abort>(
    rt: &R,
    alloc: Global,
    base: &mut TestBase,
    bytes: &[u8],
) -> Result<usize, u32> {
    let query = query(rt, alloc, bytes);
    let made = expand(alloc, query, base);
    let known = match &made {
        Ok(query) => Ok(query.vars.items().len()),
        Err(ExpandFault::TooMany { vars }) => Err(*vars),
        Err(_) => Err(0),
    };
    drop(made);
    known
}

#[test]
fn more_than_fifty_variables_are_too_many(rt: HostRuntime) {
    let mut base = unknown_sums(&rt, rt.alloc());
    assert!(rt; expanded(&rt, rt.alloc(), &mut base, OF_FIVE) == Ok(50));
    assert!(rt; expanded(&rt, rt.alloc(), &mut base, OF_SIX) == Err(51));
}

/// A query with its views expanded, as bytes.
fn shown<R: Abort>(rt: &R, alloc: Global, bytes: &[u8]) -> Vec<u8> {
    let mut base = unknown_sums(rt, alloc);
    let query = query(rt, alloc, bytes);
    let made = expand(alloc, query, &mut base);
    drop(base);
    let mut written = Vec::new(alloc);
    match &made {
        Ok(query) => put_query(rt, &mut written, query),
        Err(_) => put(rt, &mut written, b"a fault"),
    }
    drop(made);
    written
}

/// A query over a view of two variables and a relation, with aggregates over a relation and a view.
const COUNTED: &[u8] =
    b"\x00\x02\x03ann\x05pairs\x03ann\x05parts\x00\x03\x04pnum\x00\x01\x02\x00\x00\x04pnum\x01\x07\x00\x00\x00\x00\x03ann\x05parts\x02\x00\x01\x00\x01\x02\x00\x00\x00\x01\x02\x01\x00\x01\x00\x02\x00\x01\x00\x00\x00\x00\x00\x00\x00\x00\x05\x04pnum\x01\x07\x00\x01\x07\x00\x03ann\x07numbers\x02\x00\x00\x00\x01\x02\x00\x00\x00\x01\x02\x00\x00\x00\x00";

#[test]
fn views_are_put_in_without_permits(rt: HostRuntime) {
    let said: &[u8] =
        b"parts parts parts | 1.0 count0(0.1 of parts by 0.0 for 2.0 where 0.1=5) max1(0.0 of [parts | 0.0 | 0.1=5] by 0.0 for 1.0 where true) | true and 0.0=1.0 and 1.0=1.0 and 0.1=5 and 0.0=0.0 and 1.1=5 and 1.0=1.0";
    assert!(rt; shown(&rt, rt.alloc(), COUNTED).as_slice() == said);
}
