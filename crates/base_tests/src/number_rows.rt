//! Rows of numbers.

use calculus::{Row, Value};
use std::alloc::Global;
use std::process::Abort;

/// The item alone.
pub fn alone<T: Drop>(rt: &impl Abort, alloc: Global, item: T) -> Vec<T> {
    let mut items = Vec::new(alloc);
    items.push(item).expect(rt, "memory");
    items
}

/// The row of these numbers.
pub fn row(rt: &impl Abort, alloc: Global, numbers: &[i64]) -> Row {
    let mut values = Vec::new(alloc);
    for number in numbers {
        values.push(Value::Int(*number)).expect(rt, "memory");
    }
    Row::of(values)
}

/// The rows of these numbers.
pub fn rows(rt: &impl Abort, alloc: Global, numbers: &[&[i64]]) -> Vec<Row> {
    let mut rows = Vec::new(alloc);
    for one in numbers {
        rows.push(row(rt, alloc, one)).expect(rt, "memory");
    }
    rows
}
