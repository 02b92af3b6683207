//! Rows as bytes.

ghost use Rattle.std.specs.Prelude.{◌≡◌, ◌≤◌, IsTrue, IfOk, All, map};
ghost use Rattle.page_cells.specs.RowBytes.{is_row, row_bytes, widths};

use calculus::{Domain, OutOfMemory, Row};
use memory::List;
use page_cells::row_bytes;
use std::alloc::Global;

/// The bytes of a row.
pub(crate) fn encoded(alloc: Global, row: &Row, domains: &[Domain]) -> Result<List<u8>, OutOfMemory>
    requires fits { IsTrue (is_row row.now domains.now) }
    requires most { widths domains.now ≤ 1012 }
    ensures { IfOk result (λ bytes. bytes ≡ row_bytes row.now domains.now) }
{
    let mut room = [0; 1012];
    let count = row_bytes(row, domains, &mut room);
    Ok(List::of(Vec::from_slice(alloc, &room[..count])?))
}

/// The bytes of rows.
pub(crate) fn all_encoded(
    alloc: Global,
    rows: &[Row],
    domains: &[Domain],
) -> Result<List<List<u8>>, OutOfMemory>
    requires fit { All (λ row. IsTrue (is_row row domains.now)) rows.now }
    requires most { widths domains.now ≤ 1012 }
    ensures { IfOk result (λ all. all ≡ map (λ row. row_bytes row domains.now) rows.now) }
{
    let mut all = Vec::new(alloc);
    'rows: for row in rows {
        all.push(encoded(alloc, row, domains)?)?;
    }
    Ok(List::of(all))
}
