//! Ascending rows: what is among them, and rows that go and come.

ghost use Rattle.std.specs.Prelude.{◌≡◌, [], ◌∷◌, ◌<◌, ◌≤◌, ◌+◌, not, length, vec_len, vec_capacity, is_ok, filter, IfOk, IfErr, OnOk, OnErr};
ghost use Rattle.std.specs.List.{remove};
ghost use Rattle.calculus.specs.Replacement.{with_rows, without_rows};
ghost use Rattle.calculus.specs.Rows.{Ascends, has, put, IsPlaceOf};

use crate::near::has_near;
use calculus::{OutOfMemory, Row, RowSet};
use memory::copies;
use std::alloc::Global;

/// Where the row is among ascending rows, or else where it belongs. A binary search.
pub(crate) fn place_of(rows: &[Row], row: &Row) -> Result<usize, usize>
    requires { Ascends rows.now }
    ensures there { is_ok result ≡ has rows.now row.now }
    ensures place { IfErr result (IsPlaceOf rows.now row.now) }
    ensures at { IfOk result (λ i. i < length rows.now) }
    ensures gone { IfOk result (λ i. remove rows.now i ≡ without_rows (row.now ∷ []) rows.now) }
{
    rows.binary_search(row)
}

/// Takes a row from ascending rows. A binary search.
fn take_one(rows: &mut Vec<Row>, row: &Row)
    requires { Ascends rows.old.items }
    ensures rows { rows.new.items ≡ without_rows (row.now ∷ []) rows.old.items }
    ensures room { vec_capacity rows.new ≡ vec_capacity rows.old }
    ensures fewer { vec_len rows.new ≤ vec_len rows.old }
{
    match place_of(rows, row) {
        Ok(place) => {
            rows.remove(place);
        }
        Err(_) => {}
    }
}

/// Takes few rows from ascending rows, each by a binary search.
fn take_few(rows: &mut Vec<Row>, gone: &[Row])
    requires { Ascends rows.old.items }
    ensures rows { rows.new.items ≡ without_rows gone.now rows.old.items }
    ensures room { vec_capacity rows.new ≡ vec_capacity rows.old }
    ensures fewer { vec_len rows.new ≤ vec_len rows.old }
{
    for row in gone {
        take_one(rows, row);
    }
}

/// Takes a set of rows from ascending rows, in one pass over both.
fn take_set(rows: &mut Vec<Row>, gone: &RowSet)
    ensures rows { rows.new.items ≡ filter (λ row. not (has gone.now row)) rows.old.items }
    ensures room { vec_capacity rows.new ≡ vec_capacity rows.old }
    ensures fewer { vec_len rows.new ≤ vec_len rows.old }
{
    let mut near = 0;
    rows.retain(|row| !has_near(gone, row, &mut near));
}

/// Puts a row among ascending rows, where there is room for it. A binary search.
fn put_one(rows: &mut Vec<Row>, row: Row)
    requires ascend { Ascends rows.old.items }
    requires room { vec_len rows.old < vec_capacity rows.old }
    ensures rows { rows.new.items ≡ put row rows.old.items }
    ensures room { vec_capacity rows.old ≤ vec_capacity rows.new }
    ensures longer { vec_len rows.new ≤ vec_len rows.old + 1 }
{
    match place_of(rows, &row) {
        Ok(_) => {}
        Err(place) => {
            let _ = rows.insert(place, row);
        }
    }
}

/// Puts few rows among ascending rows, each by a binary search, where there is room for them.
fn put_few(rows: &mut Vec<Row>, new: Vec<Row>)
    requires ascend { Ascends rows.old.items }
    requires room { vec_len rows.old + vec_len new ≤ vec_capacity rows.old }
    ensures { rows.new.items ≡ with_rows new.items rows.old.items }
{
    let mut new = new;
    while let Some(row) = new.pop() {
        put_one(rows, row);
    }
}

/// Puts rows among ascending rows by one sort, where there is room for them.
fn put_many(rows: &mut Vec<Row>, new: Vec<Row>)
    requires ascend { Ascends rows.old.items }
    requires room { vec_len rows.old + vec_len new ≤ vec_capacity rows.old }
    ensures { rows.new.items ≡ with_rows new.items rows.old.items }
{
    let mut new = new;
    let _ = rows.append(&mut new);
    rows.sort_unstable();
    rows.dedup();
}

/// Whether so many rows are few beside those that are there.
fn are_few(some: usize, rows: &[Row]) -> bool {
    some < 16 || some < rows.len() / 64
}

/// Takes rows away and puts others. After an error the rows are as before.
pub(crate) fn change(
    alloc: Global,
    rows: &mut Vec<Row>,
    gone: &[Row],
    new: &[Row],
) -> Result<(), OutOfMemory>
    requires { Ascends rows.old.items }
    ensures ok { OnOk result (rows.new.items ≡ with_rows new.now (without_rows gone.now rows.old.items)) }
    ensures err { OnErr result (rows.new.items ≡ rows.old.items) }
{
    let new = copies(alloc, new)?;
    rows.reserve(new.len())?;
    take(alloc, rows, gone)?;
    put(rows, new);
    Ok(())
}

/// Takes rows from ascending rows. After an error the rows are as before.
fn take(alloc: Global, rows: &mut Vec<Row>, gone: &[Row]) -> Result<(), OutOfMemory>
    requires { Ascends rows.old.items }
    ensures ok { OnOk result (rows.new.items ≡ without_rows gone.now rows.old.items) }
    ensures err { OnErr result (rows.new.items ≡ rows.old.items) }
    ensures room { vec_capacity rows.new ≡ vec_capacity rows.old }
    ensures fewer { vec_len rows.new ≤ vec_len rows.old }
{
    if are_few(gone.len(), rows) {
        take_few(rows, gone);
        return Ok(());
    }
    let gone = RowSet::of_rows(copies(alloc, gone)?);
    take_set(rows, &gone);
    Ok(())
}

/// Puts rows among ascending rows, where there is room for them.
fn put(rows: &mut Vec<Row>, new: Vec<Row>)
    requires ascend { Ascends rows.old.items }
    requires room { vec_len rows.old + vec_len new ≤ vec_capacity rows.old }
    ensures { rows.new.items ≡ with_rows new.items rows.old.items }
{
    if are_few(new.len(), rows) {
        put_few(rows, new);
    } else {
        put_many(rows, new);
    }
}
