//! Calls to which memory is refused.

use crate::pair_changes::{Outcome, outcome_of};
use calculus::{Name, OutOfMemory, Pair, QTerm, Row, RowSet, TryCopy, Value};
use memory::both;
use scalar_eval::{Assigned, value_of};
use std::alloc::Global;
use std::test::*;
use update_change::set_replace;

fn row(alloc: Global, number: i64) -> Result<Row, OutOfMemory> {
    let mut values = Vec::new(alloc);
    values.push(Value::Int(number))?;
    Ok(Row::of(values))
}

/// Puts a copy of a row of this number on top.
fn push_copy(alloc: Global, rows: &mut Assigned, number: i64) -> Result<(), OutOfMemory> {
    let row = row(alloc, number)?;
    let copy = row.copy(alloc);
    drop(row);
    rows.push(copy?)
}

/// The number that a value is, where it is one.
fn number_in(value: &Option<Value>) -> Option<i64> {
    match value {
        Some(Value::Int(number)) => Some(*number),
        Some(Value::Text(_)) | None => None,
    }
}

/// The value of the only attribute of a row's copy.
fn value_copied(alloc: Global, number: i64) -> Result<Option<i64>, OutOfMemory> {
    let mut rows = Assigned::new(alloc);
    let pushed = push_copy(alloc, &mut rows, number);
    let value = value_of(alloc, &QTerm::Attr { var: 0, attr: 0 }, &rows, &[]);
    drop(rows);
    match both(pushed, value) {
        Ok((_, value)) => {
            let number = number_in(&value);
            drop(value);
            Ok(number)
        }
        Err(error) => Err(error),
    }
}

/// A row that is replaced by another.
fn pair(alloc: Global) -> Result<Pair, OutOfMemory> {
    let (old, new) = both(row(alloc, 1), row(alloc, 2))?;
    let (old, new) = (Some(old), Some(new));
    Ok(Pair { old, new })
}

fn pairs(alloc: Global) -> Result<Vec<Pair>, OutOfMemory> {
    let mut pairs = Vec::new(alloc);
    pairs.push(pair(alloc)?)?;
    Ok(pairs)
}

/// Whether one row comes where these are replaced, or memory is wanting.
fn comes(alloc: Global, pairs: &[Pair]) -> bool {
    let rows = RowSet::new(alloc);
    let made = set_replace(alloc, &rows, pairs);
    let outcome = outcome_of(&made);
    drop(made);
    drop(rows);
    outcome == Outcome::Comes(1) || outcome == Outcome::Wanting
}

/// Whether one row comes where one is replaced, or memory is wanting.
fn is_replaced(alloc: Global) -> bool {
    match pairs(alloc) {
        Ok(pairs) => {
            let comes = comes(alloc, &pairs);
            drop(pairs);
            comes
        }
        Err(_) => true,
    }
}

fn is_named(alloc: Global) -> Result<bool, OutOfMemory> {
    Ok(Name::of(alloc, b"ann")?.is_some())
}

/// Where an allocation is refused, a call answers want of memory, or what it answers anyway.
#[test]
fn want_of_memory_is_an_answer(rt: HostRuntime) {
    let value = value_copied(rt.alloc(), 3);
    assert!(rt; value == Ok(Some(3)) || value == Err(OutOfMemory));
    let named = is_named(rt.alloc());
    assert!(rt; named == Ok(true) || named == Err(OutOfMemory));
    assert!(rt; is_replaced(rt.alloc()));
}
