use aggregates::fold_values;
use calculus::{AggOp, Text, Value};
use std::alloc::Global;
use std::process::Abort;
use std::test::*;

/// The number that a value is.
fn number_of(value: &Option<Value>) -> Option<i64> {
    match value {
        Some(Value::Int(number)) => Some(*number),
        _ => None,
    }
}

/// What an operation makes of these numbers, where it is a number.
fn fold(rt: &impl Abort, alloc: Global, op: AggOp, numbers: &[i64]) -> Option<i64> {
    let mut values = Vec::new(alloc);
    for number in numbers {
        values.push(Value::Int(*number)).expect(rt, "memory");
    }
    let none = Value::Int(0);
    let value = fold_values(alloc, op, &none, &values).expect(rt, "memory");
    drop(values);
    let number = number_of(&value);
    drop(value);
    number
}

fn text(rt: &impl Abort, alloc: Global, bytes: &[u8]) -> Value {
    let text = Text::of(alloc, bytes).expect(rt, "memory");
    Value::Text(text.expect(rt, "a text"))
}

/// What an operation makes of these texts.
fn fold_texts(rt: &impl Abort, alloc: Global, op: AggOp, texts: &[&[u8]]) -> Option<Value> {
    let mut values = Vec::new(alloc);
    for bytes in texts {
        values.push(text(rt, alloc, bytes)).expect(rt, "memory");
    }
    let none = text(rt, alloc, b"");
    let value = fold_values(alloc, op, &none, &values).expect(rt, "memory");
    drop(values);
    drop(none);
    value
}

/// Whether the operation makes this text of these.
fn makes(rt: &impl Abort, alloc: Global, op: AggOp, texts: &[&[u8]], wanted: &[u8]) -> bool {
    let value = fold_texts(rt, alloc, op, texts);
    let same = match &value {
        Some(Value::Text(text)) => text.bytes() == wanted,
        _ => false,
    };
    drop(value);
    same
}

/// What an operation makes of these texts, where it is a number.
fn counts(rt: &impl Abort, alloc: Global, op: AggOp, texts: &[&[u8]]) -> Option<i64> {
    let value = fold_texts(rt, alloc, op, texts);
    let number = number_of(&value);
    drop(value);
    number
}

/// Numbers, an operation, and what it makes of them; `None` where that has no value.
type Case = (AggOp, &'static [i64], Option<i64>);

const HALF: i64 = 4_611_686_018_427_387_904;

/// Of no values.
static OF_NONE: [Case; 9] = [
    (AggOp::Count, &[], Some(0)),
    (AggOp::Countu, &[], Some(0)),
    (AggOp::Sum, &[], Some(0)),
    (AggOp::Sumu, &[], Some(0)),
    (AggOp::Avg, &[], Some(0)),
    (AggOp::Avgu, &[], Some(0)),
    (AggOp::Min, &[], Some(0)),
    (AggOp::Max, &[], Some(0)),
    (AggOp::Any, &[], Some(0)),
];

/// Of values that are all equal.
static OF_EQUAL: [Case; 9] = [
    (AggOp::Count, &[5, 5, 5], Some(3)),
    (AggOp::Countu, &[5, 5, 5], Some(1)),
    (AggOp::Sum, &[5, 5, 5], Some(15)),
    (AggOp::Sumu, &[5, 5, 5], Some(5)),
    (AggOp::Avg, &[5, 5, 5], Some(5)),
    (AggOp::Avgu, &[5, 5, 5], Some(5)),
    (AggOp::Min, &[5, 5, 5], Some(5)),
    (AggOp::Max, &[5, 5, 5], Some(5)),
    (AggOp::Any, &[5, 5, 5], Some(1)),
];

/// Of values of which two are equal.
static OF_SOME: [Case; 9] = [
    (AggOp::Count, &[7, 5, 5], Some(3)),
    (AggOp::Countu, &[7, 5, 5], Some(2)),
    (AggOp::Sum, &[7, 5, 5], Some(17)),
    (AggOp::Sumu, &[7, 5, 5], Some(12)),
    (AggOp::Avg, &[7, 5, 5], Some(5)),
    (AggOp::Avgu, &[7, 5, 5], Some(6)),
    (AggOp::Min, &[7, 5, 5], Some(5)),
    (AggOp::Max, &[7, 5, 5], Some(7)),
    (AggOp::Any, &[7, 5, 5], Some(1)),
];

/// Sums at and past the ends of 64 bits.
static SUMS: [Case; 12] = [
    (AggOp::Sum, &[i64::MAX - 1, 1], Some(i64::MAX)),
    (AggOp::Sum, &[i64::MAX, 1], None),
    (AggOp::Sum, &[i64::MAX, 1, -1], Some(i64::MAX)),
    (AggOp::Sum, &[i64::MIN + 1, -1], Some(i64::MIN)),
    (AggOp::Sum, &[i64::MIN, -1], None),
    (AggOp::Sum, &[i64::MIN, -1, 1], Some(i64::MIN)),
    (AggOp::Sum, &[i64::MIN, i64::MIN], None),
    (
        AggOp::Sum,
        &[i64::MAX, i64::MAX, i64::MIN, i64::MIN, 2],
        Some(0),
    ),
    (AggOp::Sumu, &[i64::MAX, i64::MAX], Some(i64::MAX)),
    (AggOp::Sumu, &[i64::MAX, 1, 1], None),
    (AggOp::Sumu, &[i64::MIN, i64::MIN], Some(i64::MIN)),
    (AggOp::Sumu, &[i64::MIN, -1, -1], None),
];

/// Averages, which are cut toward zero and exact where a sum has no value; the least and the greatest.
static AVERAGES: [Case; 15] = [
    (AggOp::Avg, &[-5, -6], Some(-5)),
    (AggOp::Avg, &[-1, -1, -2], Some(-1)),
    (AggOp::Avg, &[-1, 0], Some(0)),
    (AggOp::Avg, &[-7], Some(-7)),
    (AggOp::Avg, &[1, -2, -2], Some(-1)),
    (AggOp::Avgu, &[-1, -1, -2], Some(-1)),
    (AggOp::Avgu, &[1, -2, -2], Some(0)),
    (AggOp::Avg, &[i64::MAX, 1], Some(HALF)),
    (AggOp::Avg, &[i64::MIN, -1], Some(-HALF)),
    (AggOp::Avg, &[i64::MAX, i64::MAX], Some(i64::MAX)),
    (AggOp::Avg, &[i64::MIN, i64::MIN], Some(i64::MIN)),
    (AggOp::Avgu, &[i64::MAX, i64::MAX - 1], Some(i64::MAX - 1)),
    (AggOp::Avgu, &[i64::MAX, i64::MIN], Some(0)),
    (AggOp::Min, &[i64::MAX, i64::MIN], Some(i64::MIN)),
    (AggOp::Max, &[i64::MIN, i64::MAX], Some(i64::MAX)),
];

/// Whether each operation makes of its numbers what it should.
fn all_fold(rt: &impl Abort, alloc: Global, cases: &[Case]) -> bool {
    for (op, numbers, wanted) in cases {
        if fold(rt, alloc, *op, *numbers) != *wanted {
            return false;
        }
    }
    true
}

#[test]
fn folds_of_numbers_are_those_of_the_tables(rt: HostRuntime) {
    let alloc = rt.alloc();
    assert!(rt; all_fold(&rt, alloc, &OF_NONE));
    assert!(rt; all_fold(&rt, alloc, &OF_EQUAL));
    assert!(rt; all_fold(&rt, alloc, &OF_SOME));
    assert!(rt; all_fold(&rt, alloc, &SUMS));
    assert!(rt; all_fold(&rt, alloc, &AVERAGES));
}

/// Texts, an operation, and the text that it makes of them.
static TEXTS: [(AggOp, &[&[u8]], &[u8]); 7] = [
    (AggOp::Min, &[b"bolt", b"b", b"cog"], b"b"),
    (AggOp::Max, &[b"bolt", b"b", b"cog"], b"cog"),
    (AggOp::Min, &[b"b", b"b"], b"b"),
    (AggOp::Max, &[b"b", b"bolt"], b"bolt"),
    (AggOp::Min, &[b"b", b""], b""),
    (AggOp::Min, &[], b""),
    (AggOp::Max, &[], b""),
];

/// Texts, an operation, and the number that it makes of them.
static COUNTS: [(AggOp, &[&[u8]], i64); 6] = [
    (AggOp::Count, &[b"cog", b"b", b"cog", b""], 4),
    (AggOp::Countu, &[b"cog", b"b", b"cog", b""], 3),
    (AggOp::Any, &[b"cog", b"b", b"cog", b""], 1),
    (AggOp::Count, &[], 0),
    (AggOp::Countu, &[], 0),
    (AggOp::Any, &[], 0),
];

#[test]
fn texts_have_a_least_and_a_greatest_and_are_counted(rt: HostRuntime) {
    for (op, texts, wanted) in &TEXTS {
        assert!(rt; makes(&rt, rt.alloc(), *op, *texts, *wanted));
    }
    for (op, texts, wanted) in &COUNTS {
        assert!(rt; counts(&rt, rt.alloc(), *op, *texts) == Some(*wanted));
    }
}
