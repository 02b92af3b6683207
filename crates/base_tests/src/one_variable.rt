use crate::groups::{NUMBER, SHARE, TEXT, shelf};
use crate::shared::query;
use calculus::{Query, RowSet, Value};
use decompose::QueryFault;
use std::alloc::Global;
use std::process::Abort;
use std::test::*;

/// The first value of each row, 98 for a text.
fn first_numbers(rt: &impl Abort, alloc: Global, rows: &RowSet) -> Vec<i64> {
    let mut numbers = Vec::new(alloc);
    for row in rows.rows() {
        let number = match row.values().first() {
            Some(Value::Int(number)) => *number,
            _ => 98,
        };
        numbers.push(number).expect(rt, "memory");
    }
    numbers
}

/// The bytes of the query for a term of each row whose number is above this.
fn spelled(rt: &impl Abort, alloc: Global, term: &[u8], least: u8) -> Vec<u8> {
    let mut bytes = Vec::new(alloc);
    for piece in [
        b"\x00\x01\x03ann\x01p\x00\x01\x01x\x01".as_slice(),
        term,
        &[1, 4, 2, 0, 0, 0, 0, 0, 0, 0, 0, 0, 0, least],
    ] {
        bytes.extend_from_slice(piece).expect(rt, "memory");
    }
    bytes
}

/// What a query of one variable answers.
fn found(rt: &impl Abort, alloc: Global, q: &Query) -> Result<RowSet, QueryFault> {
    let mut base = shelf(rt, alloc);
    let found = match q.vars.items() {
        [rel] => ovqp::one_variable(alloc, &mut base, rel, &q.qual, q.targets.items()),
        _ => rt.abort(),
    };
    drop(base);
    found
}

/// What a fault is: 99 that a target has no value, 97 any other.
fn alone(rt: &impl Abort, alloc: Global, fault: &QueryFault) -> Vec<i64> {
    let number = match fault {
        QueryFault::NoValue { at: _ } => 99,
        _ => 97,
    };
    let mut numbers = Vec::new(alloc);
    numbers.push(number).expect(rt, "memory");
    numbers
}

/// Whether the query for a term of each row whose number is above this answers these numbers.
fn answers(rt: &impl Abort, alloc: Global, term: &[u8], least: u8, wanted: &[i64]) -> bool {
    let bytes = spelled(rt, alloc, term, least);
    let q = query(rt, alloc, &bytes);
    drop(bytes);
    let found = found(rt, alloc, &q);
    drop(q);
    let numbers = match &found {
        Ok(rows) => first_numbers(rt, alloc, rows),
        Err(fault) => alone(rt, alloc, fault),
    };
    drop(found);
    let same = numbers.as_slice() == wanted;
    drop(numbers);
    same
}

/// A term, a number, and what the query answers.
static CASES: [(&[u8], u8, &[i64]); 6] = [
    // Two rows have the number 1, which is one row of the answer.
    (NUMBER, 0, &[1, 2]),
    (NUMBER, 1, &[2]),
    (NUMBER, 2, &[]),
    (TEXT, 1, &[98]),
    // The rows of 1 have no value, and that of 2 has 2.
    (SHARE, 0, &[99]),
    (SHARE, 1, &[2]),
];

#[test]
fn a_query_of_one_variable_answers_its_rows(rt: HostRuntime) {
    for (term, least, wanted) in &CASES {
        assert!(rt; answers(&rt, rt.alloc(), *term, *least, *wanted));
    }
}
