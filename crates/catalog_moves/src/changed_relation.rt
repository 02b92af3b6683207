//! The rows of a relation that is changed.

ghost use Rattle.std.specs.Prelude.{◌≡◌, ◌∷◌, [], Some, OnOk, cond};
ghost use Rattle.calculus.specs.Change.{restructured};
ghost use Rattle.calculus.specs.Database.{Relation, relation_at};
ghost use Rattle.plain_base.specs.Shown.{database_of};
ghost use Rattle.catalog_moves.specs.Moves.{AreRows, entry_with};

use crate::asked::relation;
use crate::made_rows::put_only;
use crate::rows::SomeRows;
use calculus::{List, OutOfMemory, RelKey, Spec, TryCopy};
use plain_base::DbPlain;
use std::alloc::Global;

/// Writes the row of a relation with this file and so many pages, where there are no rows.
pub(crate) fn put_relation(
    alloc: Global,
    plain: &mut DbPlain,
    rows: &mut SomeRows,
    rel: &RelKey,
    file: u32,
    used: u32,
) -> Result<(), OutOfMemory>
    ensures same { database_of plain.new ≡ database_of plain.old }
    ensures rows { AreRows (record { entries = []; columns = []; parts = [] }) rows.old → (r : Relation) → relation_at (database_of plain.old) rel.now ≡ Some r → OnOk result (AreRows (record { entries = entry_with file 0 1 used r.info ∷ []; columns = []; parts = [] }) rows.new) }
{
    let info = relation(alloc, plain, rel)?;
    put_only(alloc, rows, &info, file, 0, 1, used)
}

/// Writes the row of a relation with this file and so many pages, where it is wanted and there are no rows.
pub(crate) fn put_resized(
    alloc: Global,
    plain: &mut DbPlain,
    rows: &mut SomeRows,
    rel: &RelKey,
    wanted: bool,
    file: u32,
    used: u32,
) -> Result<(), OutOfMemory>
    ensures same { database_of plain.new ≡ database_of plain.old }
    ensures rows { AreRows (record { entries = []; columns = []; parts = [] }) rows.old → (r : Relation) → relation_at (database_of plain.old) rel.now ≡ Some r → OnOk result (AreRows (record { entries = cond wanted (entry_with file 0 1 used r.info ∷ []) []; columns = []; parts = [] }) rows.new) }
{
    if !wanted {
        return Ok(());
    }
    put_relation(alloc, plain, rows, rel, file, used)
}

/// Writes the row of a relation that has another structure, where there are no rows.
pub(crate) fn put_modified(
    alloc: Global,
    plain: &mut DbPlain,
    rows: &mut SomeRows,
    rel: &RelKey,
    to: Spec,
    keys: &List<u8>,
    file: u32,
    used: u32,
) -> Result<(), OutOfMemory>
    ensures same { database_of plain.new ≡ database_of plain.old }
    ensures rows { AreRows (record { entries = []; columns = []; parts = [] }) rows.old → (r : Relation) → relation_at (database_of plain.old) rel.now ≡ Some r → OnOk result (AreRows (record { entries = entry_with file 0 1 used (restructured to keys.now r).info ∷ []; columns = []; parts = [] }) rows.new) }
{
    let keys = keys.copy(alloc)?;
    let mut info = relation(alloc, plain, rel)?;
    info.spec = to;
    info.keys = keys;
    put_only(alloc, rows, &info, file, 0, 1, used)
}
