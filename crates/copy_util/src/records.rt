//! A record at the front of bytes.

ghost use Rattle.std.specs.Prelude.{◌≡◌, IsFalse, IsTrue, IfOk, not, length, option_map, slice_get};
ghost use Rattle.calculus.specs.Lists.{is_any};
ghost use Rattle.quel_meaning.specs.Columns.{is_copy_form};
ghost use Rattle.quel_meaning.specs.Copying.{record_row, record_values};
ghost use Rattle.copy_util.specs.Reading.{are_readable, column_put, is_wide, record_put};

use crate::columns::piece_value;
use crate::pieces::piece_of;
use calculus::{CopyCol, Kind, OutOfMemory, Row, Value, blank_values, put_at};
use std::alloc::Global;

/// The kind at a place.
fn kind_at(kinds: &[Kind], place: u8) -> Option<Kind>
    ensures { result ≡ slice_get kinds.now place }
{
    kinds.get(place as usize).copied()
}

/// Puts the value of a column at the front of bytes into its place, and answers the bytes behind it;
/// `None` exactly where the column is bad.
fn put_column<'a>(
    alloc: Global,
    last: bool,
    kind: Option<Kind>,
    column: CopyCol,
    row: &mut Vec<Value>,
    bytes: &'a [u8],
) -> Result<Option<&'a [u8]>, OutOfMemory>
    requires form { IsTrue (is_copy_form column.form) }
    requires stored { IsFalse (is_wide kind) }
    ensures { IfOk result (λ rest. option_map (λ rest. (row.new.items, rest.now)) rest ≡ column_put last kind column row.old.items bytes.now) }
{
    match piece_of(last, column.form, bytes) {
        None => Ok(None),
        Some((piece, behind)) => match piece_value(alloc, column.form, kind, piece) {
            Ok(Some(value)) => {
                put_at(column.attr, value, row);
                Ok(Some(behind))
            }
            Ok(None) => Ok(None),
            Err(error) => Err(error),
        },
    }
}

/// Whether no column is left.
fn are_none(columns: &[CopyCol]) -> bool
    ensures { result ≡ not (is_any columns.now) }
{
    columns.is_empty()
}

/// Puts the values of a record at the front of bytes into a row, and answers the bytes behind it;
/// `None` exactly where a column is bad.
fn put_record<'a>(
    alloc: Global,
    kinds: &[Kind],
    columns: &[CopyCol],
    row: &mut Vec<Value>,
    bytes: &'a [u8],
) -> Result<Option<&'a [u8]>, OutOfMemory>
    requires readable { IsTrue (are_readable kinds.now columns.now) }
    ensures { IfOk result (λ rest. option_map (λ rest. (row.new.items, rest.now)) rest ≡ record_put kinds.now columns.now row.old.items bytes.now) }
{
    let mut left = columns;
    let mut rest = bytes;
    'columns: while let Some((column, others)) = left.split_first() {
        let kind = kind_at(kinds, column.attr);
        match put_column(alloc, are_none(others), kind, *column, row, rest)? {
            Some(behind) => {
                rest = behind;
                left = others;
            }
            None => return Ok(None),
        }
    }
    Ok(Some(rest))
}

/// The row of the record at the front of bytes, and how many bytes are behind it; `None` exactly where
/// a column is bad.
pub(crate) fn record_of(
    alloc: Global,
    kinds: &[Kind],
    columns: &[CopyCol],
    bytes: &[u8],
) -> Result<Option<(Row, usize)>, OutOfMemory>
    requires readable { IsTrue (are_readable kinds.now columns.now) }
    ensures { IfOk result (λ r. r ≡ option_map (λ p. (record_row kinds.now columns.now p.0, length p.1)) (record_values kinds.now columns.now bytes.now)) }
{
    let mut row = blank_values(alloc, kinds)?;
    match put_record(alloc, kinds, columns, &mut row, bytes) {
        Ok(Some(rest)) => {
            let behind = rest.len();
            Ok(Some((Row::of(row), behind)))
        }
        Ok(None) => {
            drop(row);
            Ok(None)
        }
        Err(error) => {
            drop(row);
            Err(error)
        }
    }
}
