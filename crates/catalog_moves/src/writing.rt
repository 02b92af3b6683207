//! Entries are written as rows behind others.

ghost use Rattle.std.specs.Prelude.{◌≡◌, [], ◌∷◌, map, IfOk, OnOk};
ghost use Rattle.stored_database.specs.Columns.{column_bytes};
ghost use Rattle.stored_database.specs.Entries.{entry_bytes};
ghost use Rattle.stored_database.specs.Printed.{columns_from};
ghost use Rattle.catalog_rows.specs.Shown.{entry_in};
ghost use Rattle.catalog_moves.specs.Moves.{Came, entry_with};

use crate::rows::SomeRows;
use crate::trees::put_columns;
use calculus::{List, OutOfMemory, RelInfo, TryCopy};
use catalog_rows::{EntryRow, entry_row};
use memory::both;
use std::alloc::Global;

/// The entry of what is known, where it has these files and numbers of pages.
fn entry_of(
    alloc: Global,
    info: &RelInfo,
    file: u32,
    base: u32,
    primary: u32,
    used: u32,
) -> Result<EntryRow, OutOfMemory>
    ensures { IfOk result (λ e. entry_in e ≡ entry_with file base primary used info.now) }
{
    let (key, keys) = both(info.key.copy(alloc), info.keys.copy(alloc))?;
    Ok(EntryRow {
        file,
        key,
        spec: info.spec,
        base,
        primary,
        directory: 0,
        used,
        keys,
    })
}

/// Writes an entry. More keys than a row has room for answer want of memory; nothing lawful has them.
pub(crate) fn put_row(
    alloc: Global,
    rows: &mut Vec<List<u8>>,
    entry: &EntryRow,
) -> Result<(), OutOfMemory>
    ensures { OnOk result (Came rows.old.items rows.new.items (entry_bytes (entry_in entry.now) ∷ [])) }
{
    if entry.keys.items().len() > 6 {
        return Err(OutOfMemory);
    }
    let row = entry_row(alloc, entry)?;
    rows.push(row)?;
    Ok(())
}

/// Writes the entry of what is known, where it has these files and numbers of pages.
pub(crate) fn put_entry(
    alloc: Global,
    rows: &mut Vec<List<u8>>,
    info: &RelInfo,
    file: u32,
    base: u32,
    primary: u32,
    used: u32,
) -> Result<(), OutOfMemory>
    ensures { OnOk result (Came rows.old.items rows.new.items (entry_bytes (entry_with file base primary used info.now) ∷ [])) }
{
    let entry = entry_of(alloc, info, file, base, primary, used)?;
    put_row(alloc, rows, &entry)
}

/// Writes the entry and the attributes of a relation or a view.
pub(crate) fn put_known(
    alloc: Global,
    rows: &mut SomeRows,
    info: &RelInfo,
    file: u32,
    primary: u32,
    used: u32,
) -> Result<(), OutOfMemory>
    ensures entries { OnOk result (Came rows.old.entries.items rows.new.entries.items (entry_bytes (entry_with file 0 primary used info.now) ∷ [])) }
    ensures columns { OnOk result (Came rows.old.columns.items rows.new.columns.items (map column_bytes (columns_from file 0 info.now.attrs))) }
    ensures parts { rows.new.parts.items ≡ rows.old.parts.items }
{
    put_entry(alloc, &mut rows.entries, info, file, 0, primary, used)?;
    put_columns(alloc, &mut rows.columns, file, info.attrs.items())
}
