use crate::number_rows::rows;
use crate::shared::query;
use crate::shown::put;
use calculus::RowSet;
use decompose::{QueryFault, answer};
use std::alloc::Global;
use std::process::Abort;
use test_bases::TestBase;

/// The number of the third of three variables, where the first is at least 2, the third less than the first,
/// and the second, which nothing else names, at least 1; and where that is at least 4.
const SOME: &[u8] =
    b"\x00\x03\x03ann\x01p\x03ann\x01p\x03ann\x01p\x00\x01\x01x\x01\x02\x02\x00\x03\x03\x01\x05\x02\x00\x00\x00\x00\x00\x00\x00\x00\x00\x00\x02\x01\x05\x02\x01\x00\x00\x00\x00\x00\x00\x00\x00\x00\x01\x01\x02\x02\x02\x00\x02\x00\x00";

const NONE: &[u8] =
    b"\x00\x03\x03ann\x01p\x03ann\x01p\x03ann\x01p\x00\x01\x01x\x01\x02\x02\x00\x03\x03\x01\x05\x02\x00\x00\x00\x00\x00\x00\x00\x00\x00\x00\x02\x01\x05\x02\x01\x00\x00\x00\x00\x00\x00\x00\x00\x00\x04\x01\x02\x02\x02\x00\x02\x00\x00";

/// The same for an attribute that isn't there.
const SECOND_OF_SOME: &[u8] =
    b"\x00\x03\x03ann\x01p\x03ann\x01p\x03ann\x01p\x00\x01\x01x\x01\x02\x02\x01\x03\x03\x01\x05\x02\x00\x00\x00\x00\x00\x00\x00\x00\x00\x00\x02\x01\x05\x02\x01\x00\x00\x00\x00\x00\x00\x00\x00\x00\x01\x01\x02\x02\x02\x00\x02\x00\x00";

const SECOND_OF_NONE: &[u8] =
    b"\x00\x03\x03ann\x01p\x03ann\x01p\x03ann\x01p\x00\x01\x01x\x01\x02\x02\x01\x03\x03\x01\x05\x02\x00\x00\x00\x00\x00\x00\x00\x00\x00\x00\x02\x01\x05\x02\x01\x00\x00\x00\x00\x00\x00\x00\x00\x00\x04\x01\x02\x02\x02\x00\x02\x00\x00";

/// What is answered of a query over the numbers 0 to 3.
fn answered(rt: &impl Abort, alloc: Global, bytes: &[u8]) -> Result<RowSet, QueryFault> {
    let q = query(rt, alloc, bytes);
    let mut base = TestBase::of_numbers(alloc, 4);
    let found = answer(alloc, &mut base, &q, &[]);
    drop(base);
    drop(q);
    found
}

/// Whether this is the set of the rows of these numbers.
fn is_set(
    rt: &impl Abort,
    alloc: Global,
    found: &Result<RowSet, QueryFault>,
    numbers: &[&[i64]],
) -> bool {
    let wanted = RowSet::of_rows(rows(rt, alloc, numbers));
    let same = match found {
        Ok(set) => *set == wanted,
        Err(_) => false,
    };
    drop(wanted);
    same
}

/// Whether these numbers are answered.
fn gives(rt: &impl Abort, alloc: Global, bytes: &[u8], numbers: &[&[i64]]) -> bool {
    let found = answered(rt, alloc, bytes);
    let same = is_set(rt, alloc, &found, numbers);
    drop(found);
    same
}

/// Whether a target lacks a value.
fn lacks(rt: &impl Abort, alloc: Global, bytes: &[u8]) -> bool {
    let found = answered(rt, alloc, bytes);
    let lacks = match &found {
        Err(QueryFault::NoValue { at }) => at.items().len() == 3,
        _ => false,
    };
    drop(found);
    lacks
}

/// The bytes of the query of the number of the first of 20 variables, each of which is at least 1.
fn many(rt: &impl Abort, alloc: Global) -> Vec<u8> {
    let mut bytes = Vec::new(alloc);
    put(rt, &mut bytes, b"\x00\x14");
    for _ in 0..20u8 {
        put(rt, &mut bytes, b"\x03ann\x01p");
    }
    put(rt, &mut bytes, b"\x00\x01\x01x\x01\x02\x00\x00");
    put(rt, &mut bytes, &[3; 20]);
    put(rt, &mut bytes, b"\x00");
    for var in 0..20u8 {
        put(
            rt,
            &mut bytes,
            &[1, 5, 2, var, 0, 0, 0, 0, 0, 0, 0, 0, 0, 1],
        );
    }
    bytes
}

/// Whether the numbers 1 to 3 are answered of it.
fn many_end(rt: &impl Abort, alloc: Global) -> bool {
    let bytes = many(rt, alloc);
    let same = gives(rt, alloc, &bytes, &[&[1], &[2], &[3]]);
    drop(bytes);
    same
}

#[test]
fn a_condition_on_one_variable_is_applied_to_its_rows(rt: HostRuntime) {
    // The first is 2 or 3, so the third is 0, 1 or 2.
    assert!(rt; gives(&rt, rt.alloc(), SOME, &[&[0], &[1], &[2]]));
    // No row of the second is left.
    assert!(rt; gives(&rt, rt.alloc(), NONE, &[]));
    assert!(rt; lacks(&rt, rt.alloc(), SECOND_OF_SOME));
    assert!(rt; !lacks(&rt, rt.alloc(), SECOND_OF_NONE));
    assert!(rt; many_end(&rt, rt.alloc()));
}
