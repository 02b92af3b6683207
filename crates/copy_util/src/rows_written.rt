//! The bytes of rows.

ghost use Rattle.std.specs.Prelude.{◌≡◌, ◌++◌, [], IsTrue, IfOk, option_map};
ghost use Rattle.quel_meaning.specs.Columns.{is_copy_form};
ghost use Rattle.quel_meaning.specs.Copying.{field_bytes, file_of_rows, record_bytes};
ghost use Rattle.copy_util.specs.Reading.{have_forms, up_to_bad};
ghost use Rattle.copy_util.specs.Writing.{where_put};

use crate::printing::push_column;
use calculus::{CopyCol, OutOfMemory, Row};

/// Adds the value of a column of the row; answers whether it is there and fits the column's form.
fn push_field(out: &mut Vec<u8>, column: CopyCol, row: &Row) -> Result<bool, OutOfMemory>
    requires { IsTrue (is_copy_form column.form) }
    ensures { IfOk result (λ put. option_map (λ piece. out.old.items ++ piece) (field_bytes row.now column) ≡ where_put put out.new.items) }
{
    match row.values().get(column.attr as usize) {
        Some(value) => push_column(out, column.form, value),
        None => Ok(false),
    }
}

/// Adds the record of a row; answers whether each of its values fits the form of its column.
fn push_record(out: &mut Vec<u8>, columns: &[CopyCol], row: &Row) -> Result<bool, OutOfMemory>
    requires { IsTrue (have_forms columns.now) }
    ensures { IfOk result (λ put. option_map (λ piece. out.old.items ++ piece) (record_bytes columns.now row.now) ≡ where_put put out.new.items) }
{
    let mut left = columns;
    'columns: while let Some((column, others)) = left.split_first() {
        if !push_field(out, *column, row)? {
            return Ok(false);
        }
        left = others;
    }
    Ok(true)
}

/// Puts the records of the rows into an empty list of bytes, and answers the number of the first bad
/// row, counted from 1, where there is one.
pub(crate) fn push_rows(
    out: &mut Vec<u8>,
    columns: &[CopyCol],
    rows: &[Row],
) -> Result<Option<usize>, OutOfMemory>
    requires forms { IsTrue (have_forms columns.now) }
    requires empty { out.old.items ≡ [] }
    ensures { IfOk result (λ bad. file_of_rows columns.now rows.now ≡ up_to_bad out.new.items bad) }
{
    for i in 0..rows.len() {
        if !push_record(out, columns, &rows[i])? {
            return Ok(Some(i + 1));
        }
    }
    Ok(None)
}
