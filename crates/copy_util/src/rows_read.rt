//! The rows of a file.

ghost use Rattle.std.specs.Prelude.{◌≡◌, ◌≤◌, [], IsTrue, IfOk, length};
ghost use Rattle.quel_meaning.specs.Copying.{most_file_bytes, rows_in_file};
ghost use Rattle.copy_util.specs.Reading.{are_readable, up_to_bad};

use crate::records::record_of;
use calculus::{CopyCol, Kind, OutOfMemory, Row};
use std::alloc::Global;

/// Puts the rows of a file's bytes into an empty list, and answers the number of the first bad one,
/// counted from 1, where there is one; then nothing behind it is read. A record takes a byte at least.
pub(crate) fn read_rows(
    alloc: Global,
    kinds: &[Kind],
    columns: &[CopyCol],
    bytes: &[u8],
    rows: &mut Vec<Row>,
) -> Result<Option<u32>, OutOfMemory>
    requires readable { IsTrue (are_readable kinds.now columns.now) }
    requires short { length bytes.now ≤ most_file_bytes }
    requires empty { rows.old.items ≡ [] }
    ensures { IfOk result (λ bad. rows_in_file kinds.now columns.now bytes.now ≡ up_to_bad rows.new.items bad) }
{
    let mut rest = bytes;
    'records: while let Some((_first, others)) = rest.split_first() {
        match record_of(alloc, kinds, columns, rest)? {
            Some((row, behind)) => {
                rows.push(row)?;
                rest = others.split_at(others.len().saturating_sub(behind)).1;
            }
            None => return Ok(Some(rows.len() as u32 + 1)),
        }
    }
    Ok(None)
}
