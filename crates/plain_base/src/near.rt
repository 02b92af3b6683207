//! Rows that are looked for one after the other, in ascending order.

ghost use Rattle.std.specs.Prelude.{◌≡◌, IfSome};
ghost use Rattle.calculus.specs.Rows.{Ascends, has};
ghost use Rattle.plain_base.specs.Near.{IsLessAt};

use crate::rows::place_of;
use calculus::{Row, RowSet};
use std::cmp::Ordering;

/// Whether there is this row, and it isn't greater than the row.
fn is_up_to(other: Option<&Row>, row: &Row) -> bool {
    match other {
        Some(other) => other.compare(row).is_le(),
        None => false,
    }
}

/// The place behind this one, unless the row there is greater than the row.
fn next_place(rows: &[Row], row: &Row, place: usize) -> usize {
    if place < rows.len() && is_up_to(rows.get(place + 1), row) {
        place + 1
    } else {
        place
    }
}

/// Whether the row is among ascending rows, where the row at this place is less, as far as the one
/// behind it says.
fn has_behind(rows: &[Row], row: &Row, place: usize) -> Option<bool>
    requires ascend { Ascends rows.now }
    requires less { IsLessAt rows.now row.now place }
    ensures { IfSome result (λ b. b ≡ has rows.now row.now) }
{
    if place + 1 >= rows.len() {
        return None;
    }
    match rows[place + 1].compare(row) {
        Ordering::Equal => Some(true),
        Ordering::Less => None,
        Ordering::Greater => Some(false),
    }
}

/// Whether the row is among ascending rows, as far as the row at this place and the one behind it say.
fn has_at(rows: &[Row], row: &Row, place: usize) -> Option<bool>
    requires { Ascends rows.now }
    ensures { IfSome result (λ b. b ≡ has rows.now row.now) }
{
    if place >= rows.len() {
        return None;
    }
    match rows[place].compare(row) {
        Ordering::Equal => Some(true),
        Ordering::Less => has_behind(rows, row, place),
        Ordering::Greater => None,
    }
}

/// Where the row is among ascending rows, or the row before which it belongs behind. A binary search.
fn search(rows: &[Row], row: &Row, near: &mut usize) -> bool
    requires { Ascends rows.now }
    ensures { result ≡ has rows.now row.now }
{
    match place_of(rows, row) {
        Ok(place) => {
            *near = place;
            true
        }
        Err(place) => {
            *near = place.saturating_sub(1);
            false
        }
    }
}

/// Whether the row is among ascending rows. Begins at the place `near`, which comes to be that of the
/// row, or that of the greatest one below it: so two or three comparisons are enough where rows are
/// looked for in ascending order that lie close together. Else it is a binary search.
pub(crate) fn is_near(rows: &[Row], row: &Row, near: &mut usize) -> bool
    requires { Ascends rows.now }
    ensures { result ≡ has rows.now row.now }
{
    *near = next_place(rows, row, *near);
    match has_at(rows, row, *near) {
        Some(is_there) => is_there,
        None => search(rows, row, near),
    }
}

/// Whether the row is in the set, looked for as `is_near` does.
pub(crate) fn has_near(set: &RowSet, row: &Row, near: &mut usize) -> bool
    ensures { result ≡ has set.now row.now }
{
    is_near(set.rows(), row, near)
}
