//! The rows of the three catalogues are read.

ghost use Rattle.std.specs.Prelude.{◌≡◌, IfOk, option_map};
ghost use Rattle.catalog_read.specs.Read.{catalogue_of, catalogue_shown};

use crate::pairs::both_found;
use crate::rows::CatalogueRows;
use crate::sorting::read_rows;
use calculus::{List, OutOfMemory};
use catalog_rows::{ColumnRow, EntryRow, PartRow};
use std::alloc::Global;

/// The rows, put together.
fn together(rows: (List<EntryRow>, (List<ColumnRow>, List<PartRow>))) -> CatalogueRows
    ensures { result ≡ record { entries = rows.0; columns = rows.1.0; parts = rows.1.1 } }
{
    let (entries, behind) = rows;
    let (columns, parts) = behind;
    CatalogueRows {
        entries,
        columns,
        parts,
    }
}

/// The catalogue whose rows have these bytes; `None` exactly where some bytes are those of no row, or a
/// row stands twice.
pub fn read_catalogue(
    alloc: Global,
    entries: &[List<u8>],
    columns: &[List<u8>],
    parts: &[List<u8>],
) -> Result<Option<CatalogueRows>, OutOfMemory>
    ensures { IfOk result (λ found. option_map catalogue_shown found ≡ catalogue_of entries.now columns.now parts.now) }
{
    let entries = read_rows(alloc, entries);
    let columns = read_rows(alloc, columns);
    let parts = read_rows(alloc, parts);
    match both_found(entries, both_found(columns, parts)) {
        Ok(Some(found)) => Ok(Some(together(found))),
        Ok(None) => Ok(None),
        Err(error) => Err(error),
    }
}
