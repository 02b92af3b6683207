//! Terms and qualifications as bytes, and the queries that have them.

use calculus::{ArithOp, CmpOp, Query};
use quel_tree::{QueryTree, tree_of};
use std::alloc::Global;
use std::process::Abort;

/// Puts bytes behind the others.
pub fn put(rt: &impl Abort, written: &mut Vec<u8>, bytes: &[u8]) {
    written.extend_from_slice(bytes).expect(rt, "no memory");
}

pub fn put_number(rt: &impl Abort, written: &mut Vec<u8>, number: i64) {
    put(rt, written, b"\x00");
    put(rt, written, &number.to_be_bytes());
}

/// Puts an operation on two numbers.
pub fn put_operation(rt: &impl Abort, written: &mut Vec<u8>, op: ArithOp, left: i64, right: i64) {
    let op = match op {
        ArithOp::Add => 0,
        ArithOp::Sub => 1,
        ArithOp::Mul => 2,
        ArithOp::Div => 3,
        ArithOp::Pow => 4,
        ArithOp::Mod => 5,
    };
    put(rt, written, &[5, op]);
    put_number(rt, written, left);
    put_number(rt, written, right);
}

/// Puts that 6 divided by a number compares so with another.
pub fn put_comparison(rt: &impl Abort, written: &mut Vec<u8>, op: CmpOp, divisor: i64, right: i64) {
    let op = match op {
        CmpOp::Eq => 0,
        CmpOp::Ne => 1,
        CmpOp::Lt => 2,
        CmpOp::Le => 3,
        CmpOp::Gt => 4,
        CmpOp::Ge => 5,
    };
    put(rt, written, &[1, op]);
    put_operation(rt, written, ArithOp::Div, 6, divisor);
    put_number(rt, written, right);
}

/// The query that these bytes spell.
pub fn query(rt: &impl Abort, alloc: Global, bytes: &[u8]) -> Query {
    tree_of::<QueryTree>(alloc, bytes)
        .ok()
        .expect(rt, "a query")
}

/// The query for the term that these bytes spell, without variables.
pub fn query_for(rt: &impl Abort, alloc: Global, term: &[u8]) -> Query {
    let mut bytes = Vec::new(alloc);
    put(rt, &mut bytes, b"\x00\x00\x00\x01\x01x\x01");
    put(rt, &mut bytes, term);
    put(rt, &mut bytes, b"\x00");
    let query = query(rt, alloc, &bytes);
    drop(bytes);
    query
}

/// The query for nothing where this holds, without variables.
pub fn query_where(rt: &impl Abort, alloc: Global, qual: &[u8]) -> Query {
    let mut bytes = Vec::new(alloc);
    put(rt, &mut bytes, b"\x00\x00\x00\x00");
    put(rt, &mut bytes, qual);
    let query = query(rt, alloc, &bytes);
    drop(bytes);
    query
}
