//! The order of two rows by the columns to sort by.

ghost use Rattle.std.specs.Prelude.{◌≡◌, pos};
ghost use Rattle.quel_meaning.specs.Tables.{cell, column_order, key_order, rows_order};

use calculus::{Row, SortKey, Value};
use std::cmp::Ordering;

/// The value of a row in a column; in one that it hasn't, what stands for none.
fn cell<'a>(row: &'a Row, column: u16, none: &'a Value) -> &'a Value
    requires { none.now ≡ Value.Int (pos 0) }
    ensures { result.now ≡ cell row.now column }
{
    match row.values().get(usize::from(column)) {
        Some(value) => value,
        None => none,
    }
}

/// The order of two rows by the values of a column.
fn column_order(left: &Row, right: &Row, column: u16) -> Ordering
    ensures { result ≡ column_order column left.now right.now }
{
    let none = Value::Int(0);
    cell(left, column, &none).compare(cell(right, column, &none))
}

/// The order of two rows by a column, greater values first where it is down.
fn key_order(left: &Row, right: &Row, key: SortKey) -> Ordering
    ensures { result ≡ key_order key left.now right.now }
{
    if key.down {
        column_order(right, left, key.column)
    } else {
        column_order(left, right, key.column)
    }
}

/// The order of two rows by columns, the first weightiest; rows that agree in all of them by the
/// order of rows. Takes no memory.
pub fn rows_order(left: &Row, right: &Row, keys: &[SortKey]) -> Ordering
    ensures { result ≡ rows_order keys.now left.now right.now }
{
    for key in keys {
        let order = key_order(left, right, *key);
        if order.is_ne() {
            return order;
        }
    }
    left.compare(right)
}
