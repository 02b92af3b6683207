//! What the tests make their values of.

use calculus::{AggTable, Boxed, Chars, Groups, List, Name, Row, RowSet, Text, TryCopy, Value};
use std::alloc::Global;
use std::process::Abort;
use std::test::*;

/// Whether a copy of the tree is given; that it is the same tree is the clause of `copy`.
pub fn has_copy<T: TryCopy + Drop>(alloc: Global, tree: T) -> bool {
    tree.copy(alloc).is_ok()
}

/// Whether the copy of the value is equal to it.
pub fn is_copied<T: TryCopy + PartialEq + Drop>(rt: &impl Abort, alloc: Global, tree: T) -> bool {
    let copy = tree.copy(alloc).expect(rt, "no memory");
    let same = copy == tree;
    drop(copy);
    drop(tree);
    same
}

/// The list of this one item.
pub fn one<T: Drop>(rt: &impl Abort, alloc: Global, item: T) -> List<T> {
    let mut items = Vec::new(alloc);
    items.push(item).expect(rt, "no memory");
    List::of(items)
}

pub fn boxed<T: Drop>(rt: &impl Abort, alloc: Global, value: T) -> Boxed<T> {
    Boxed::new(alloc, value).expect(rt, "no memory")
}

pub fn named(rt: &impl Abort, alloc: Global, bytes: &[u8]) -> Name {
    let name = Name::of(alloc, bytes).expect(rt, "no memory");
    name.expect(rt, "no name")
}

pub fn chars(rt: &impl Abort, alloc: Global, bytes: &[u8]) -> Chars {
    let chars = Chars::of(alloc, bytes).expect(rt, "no memory");
    chars.expect(rt, "no text constant")
}

pub fn text(rt: &impl Abort, alloc: Global, bytes: &[u8]) -> Value {
    let text = Text::of(alloc, bytes).expect(rt, "no memory");
    Value::Text(text.expect(rt, "no text"))
}

/// The row of these numbers.
pub fn row(rt: &impl Abort, alloc: Global, numbers: &[i64]) -> Row {
    let mut values = Vec::new(alloc);
    for number in numbers {
        values.push(Value::Int(*number)).expect(rt, "no memory");
    }
    Row::of(values)
}

/// The rows of these numbers.
pub fn rows(rt: &impl Abort, alloc: Global, lists: &[&[i64]]) -> Vec<Row> {
    let mut rows = Vec::new(alloc);
    for numbers in lists {
        rows.push(row(rt, alloc, numbers)).expect(rt, "no memory");
    }
    rows
}

/// The group at this number, and what an aggregate gives there.
fn group(rt: &impl Abort, alloc: Global, by: i64, value: Option<i64>) -> (Row, Option<Value>) {
    let value = match value {
        Some(number) => Some(Value::Int(number)),
        None => None,
    };
    (row(rt, alloc, &[by]), value)
}

/// A table with one group, at this number, which has this value, and 9 elsewhere.
pub fn table(rt: &impl Abort, alloc: Global, by: i64, value: Option<i64>) -> AggTable {
    let mut groups = Vec::new(alloc);
    groups
        .push(group(rt, alloc, by, value))
        .expect(rt, "no memory");
    AggTable {
        groups: Groups::of(groups),
        empty: Value::Int(9),
    }
}

/// The set of the rows of these numbers.
pub fn set(rt: &impl Abort, alloc: Global, lists: &[&[i64]]) -> RowSet {
    RowSet::of_rows(rows(rt, alloc, lists))
}
