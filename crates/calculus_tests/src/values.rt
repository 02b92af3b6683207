//! The values of terms.

use crate::shared::{one, row, table};
use crate::spelled::{put, put_number, put_operation, query_for};
use calculus::{AggTable, ArithOp, Value};
use scalar_eval::{Assigned, value_of};
use std::alloc::Global;
use std::process::Abort;
use std::test::*;

const LEAST: i64 = i64::MIN;

const GREATEST: i64 = i64::MAX;

/// The number that a value is, where there is one.
fn number_in(rt: &impl Abort, value: &Option<Value>) -> Option<i64> {
    match value {
        Some(Value::Int(number)) => Some(*number),
        Some(Value::Text(_)) => panic!(*rt; "a text"),
        None => None,
    }
}

/// The value of the term that these bytes spell, which must be a number, over these rows.
fn number_over(
    rt: &impl Abort,
    alloc: Global,
    term: &[u8],
    rows: &Assigned,
    tables: &[AggTable],
) -> Option<i64> {
    let query = query_for(rt, alloc, term);
    let value = match query.targets.items() {
        [target] => value_of(alloc, &target.term, rows, tables).expect(rt, "no memory"),
        _ => rt.abort(),
    };
    drop(query);
    let number = number_in(rt, &value);
    drop(value);
    number
}

/// The value of a term, which must be a number, over no rows.
fn number(rt: &impl Abort, alloc: Global, term: &[u8]) -> Option<i64> {
    let rows = Assigned::new(alloc);
    let number = number_over(rt, alloc, term, &rows, &[]);
    drop(rows);
    number
}

/// The value of an operation on two numbers.
fn computed(rt: &impl Abort, alloc: Global, op: ArithOp, left: i64, right: i64) -> Option<i64> {
    let mut term = Vec::new(alloc);
    put_operation(rt, &mut term, op, left, right);
    let number = number(rt, alloc, &term);
    drop(term);
    number
}

/// An operation, its numbers, and its value.
const OPERATIONS: [(ArithOp, i64, i64, Option<i64>); 15] = [
    (ArithOp::Div, -7, 2, Some(-3)),
    (ArithOp::Div, 1, 0, None),
    (ArithOp::Div, LEAST, -1, None),
    (ArithOp::Mod, -7, 2, Some(-1)),
    (ArithOp::Mod, 7, -2, Some(1)),
    (ArithOp::Mod, LEAST, -1, Some(0)),
    (ArithOp::Pow, -2, 2, Some(4)),
    (ArithOp::Pow, 2, 9, Some(512)),
    (ArithOp::Pow, 2, -1, None),
    (ArithOp::Pow, 0, 0, Some(1)),
    (ArithOp::Pow, -2, 63, Some(LEAST)),
    (ArithOp::Pow, 2, 63, None),
    (ArithOp::Add, GREATEST, 1, None),
    (ArithOp::Sub, LEAST, 1, None),
    (ArithOp::Mul, LEAST, -1, None),
];

#[test]
fn numbers_have_64_bits(rt: HostRuntime) {
    for (op, left, right, result) in &OPERATIONS {
        assert!(rt; computed(&rt, rt.alloc(), *op, *left, *right) == *result);
    }
    // The least number has no other sign.
    assert!(rt; unsigned(&rt, rt.alloc(), -5) == (Some(5), Some(5)));
    assert!(rt; unsigned(&rt, rt.alloc(), 7) == (Some(-7), Some(7)));
    assert!(rt; unsigned(&rt, rt.alloc(), LEAST) == (None, None));
    // A term of 500 levels has a value.
    assert!(rt; signed(&rt, rt.alloc(), &[3; 500], 5) == Some(5));
}

/// The value of a number behind so many signs.
fn signed(rt: &impl Abort, alloc: Global, signs: &[u8], value: i64) -> Option<i64> {
    let mut term = Vec::new(alloc);
    put(rt, &mut term, signs);
    put_number(rt, &mut term, value);
    let number = number(rt, alloc, &term);
    drop(term);
    number
}

/// The negation of a number and its absolute value.
fn unsigned(rt: &impl Abort, alloc: Global, value: i64) -> (Option<i64>, Option<i64>) {
    let negated = signed(rt, alloc, b"\x03", value);
    (negated, signed(rt, alloc, b"\x04", value))
}

/// Whether a value is the text of these bytes, or there is none of either.
fn is_text(value: &Option<Value>, bytes: Option<&[u8]>) -> bool {
    match value {
        Some(Value::Text(text)) => Some(text.bytes()) == bytes,
        Some(Value::Int(_)) => false,
        None => bytes.is_none(),
    }
}

/// The bytes of two text constants put together.
fn concatenation(rt: &impl Abort, alloc: Global, left: &[u8], right: &[u8]) -> Vec<u8> {
    let mut term = Vec::new(alloc);
    put(rt, &mut term, b"\x06");
    for bytes in [left, right] {
        put(rt, &mut term, &[1, u8::try_from(bytes.len()).unwrap_or(0)]);
        put(rt, &mut term, bytes);
    }
    term
}

/// Whether two text constants put together have these bytes, or no value where there are none.
fn is_joined(
    rt: &impl Abort,
    alloc: Global,
    left: &[u8],
    right: &[u8],
    bytes: Option<&[u8]>,
) -> bool {
    let term = concatenation(rt, alloc, left, right);
    let query = query_for(rt, alloc, &term);
    drop(term);
    let rows = Assigned::new(alloc);
    let value = match query.targets.items() {
        [target] => value_of(alloc, &target.term, &rows, &[]).expect(rt, "no memory"),
        _ => rt.abort(),
    };
    drop(rows);
    drop(query);
    let same = is_text(&value, bytes);
    drop(value);
    same
}

/// Two text constants, and the bytes of them put together.
type Joined = (&'static [u8], &'static [u8], &'static [u8]);

const JOINED: [Joined; 5] = [
    (b"a b  ", b"", b"a b"),
    (b"\\*\\[\\ ", b"", b"*["),
    (b"a\\", b"", b"a\\"),
    (b"\\\\", b"", b"\\"),
    (b"ab ", b"cd", b"abcd"),
];

#[test]
fn constants_lose_escapes_and_blanks_and_are_joined_up_to_255_bytes(rt: HostRuntime) {
    for (left, right, bytes) in &JOINED {
        assert!(rt; is_joined(&rt, rt.alloc(), left, right, Some(*bytes)));
    }
    let longest = [b'a'; 255];
    let most = &longest[..254];
    assert!(rt; is_joined(&rt, rt.alloc(), most, b"a", Some(&longest)));
    assert!(rt; is_joined(&rt, rt.alloc(), most, b"aa", None));
}

/// Puts a row of this number on top.
fn push(rt: &impl Abort, alloc: Global, rows: &mut Assigned, number: i64) {
    rows.push(row(rt, alloc, &[number])).expect(rt, "no memory");
}

/// The first attribute of the second variable.
const SECOND: &[u8] = b"\x02\x01\x00";

/// The second row's value where two rows are put, and where the second one is taken off again.
fn second(rt: &impl Abort, alloc: Global, first: i64, second: i64) -> (Option<i64>, Option<i64>) {
    let mut rows = Assigned::new(alloc);
    push(rt, alloc, &mut rows, first);
    push(rt, alloc, &mut rows, second);
    let there = number_over(rt, alloc, SECOND, &rows, &[]);
    rows.pop();
    let gone = number_over(rt, alloc, SECOND, &rows, &[]);
    drop(rows);
    (there, gone)
}

/// The count of a relation's rows with the first variable's first attribute, at the first slot and at the second.
const COUNT: &[u8] =
    b"\x07\x00\x00\x00\x00\x03ann\x01p\x02\x00\x00\x00\x01\x02\x00\x00\x00\x01\x02\x00\x00\x00";

const SECOND_COUNT: &[u8] =
    b"\x07\x00\x01\x00\x00\x03ann\x01p\x02\x00\x00\x00\x01\x02\x00\x00\x00\x01\x02\x00\x00\x00";

/// What a count is for a row of this number, where the only table has this value at 1.
fn counted_at(
    rt: &impl Abort,
    alloc: Global,
    count: &[u8],
    value: Option<i64>,
    linked: i64,
) -> Option<i64> {
    let tables = one(rt, alloc, table(rt, alloc, 1, value));
    let mut rows = Assigned::new(alloc);
    push(rt, alloc, &mut rows, linked);
    let number = number_over(rt, alloc, count, &rows, tables.items());
    drop(rows);
    drop(tables);
    number
}

/// A count, the table's value at 1, the number of the row, and the count.
const COUNTS: [(&[u8], Option<i64>, i64, Option<i64>); 5] = [
    (COUNT, Some(5), 1, Some(5)),
    (COUNT, Some(5), 2, Some(9)),
    (COUNT, None, 1, None),
    (COUNT, None, 2, Some(9)),
    (SECOND_COUNT, Some(5), 1, None),
];

#[test]
fn rows_are_put_on_top_and_aggregates_have_the_values_of_their_tables(rt: HostRuntime) {
    assert!(rt; second(&rt, rt.alloc(), 3, 4) == (Some(4), None));
    for (count, value, linked, number) in &COUNTS {
        assert!(rt; counted_at(&rt, rt.alloc(), *count, *value, *linked) == *number);
    }
}
