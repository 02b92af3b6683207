//! Rows that a database has, and rows that it hasn't.

ghost use Rattle.std.specs.Prelude.{◌≡◌, [], ◌∷◌, ◌++◌, cond, filter, Some, IfOk, OnOk};
ghost use Rattle.calculus.specs.Database.{Db};
ghost use Rattle.calculus.specs.Replacement.{without_rows};
ghost use Rattle.calculus.specs.Rows.{has, set_of};
ghost use Rattle.calculus.specs.Stored.{rows_at};
ghost use Rattle.base_trait.specs.Causes.{HasCause};

use base_trait::{Base, BaseFault};
use calculus::{OutOfMemory, RelKey, Row, RowSet};
use std::alloc::Global;

/// The row behind the others, where this is so.
fn put_if(rows: &mut Vec<Row>, row: Row, is_so: bool) -> Result<(), OutOfMemory>
    ensures { OnOk result (rows.new.items ≡ rows.old.items ++ cond is_so (row ∷ []) []) }
{
    if is_so {
        rows.push(row)?;
    }
    Ok(())
}

/// Those of the rows that the relation or catalogue under a key has. Asks once for each.
pub(crate) fn rows_present<B: Base>(
    alloc: Global,
    base: &mut B,
    key: &RelKey,
    rows: Vec<Row>,
) -> Result<RowSet, BaseFault>
    ensures known { (db : Db) → B.database base.old ≡ Some db → IfOk result (λ set. set ≡ set_of (filter (has (rows_at db key.now)) rows.items)) }
    ensures kept { B.database base.new ≡ B.database base.old }
    ensures stays { (s : Db) → B.schema base.old ≡ Some s → B.schema base.new ≡ Some s }
    ensures asked { (b : B) → B.asked b base.old → B.asked b base.new }
    ensures cause { HasCause (B.database base.old) (B.faults base.old) (B.faults base.new) result }
{
    let mut there = Vec::new(alloc);
    for row in rows {
        let is_there = base.has_row(alloc, key, &row)?;
        put_if(&mut there, row, is_there)?;
    }
    Ok(RowSet::of_rows(there))
}

/// Those of the rows that the relation or catalogue under a key hasn't. Asks once for each.
pub(crate) fn rows_absent<B: Base>(
    alloc: Global,
    base: &mut B,
    key: &RelKey,
    rows: Vec<Row>,
) -> Result<RowSet, BaseFault>
    ensures known { (db : Db) → B.database base.old ≡ Some db → IfOk result (λ set. set ≡ set_of (without_rows (rows_at db key.now) rows.items)) }
    ensures kept { B.database base.new ≡ B.database base.old }
    ensures stays { (s : Db) → B.schema base.old ≡ Some s → B.schema base.new ≡ Some s }
    ensures asked { (b : B) → B.asked b base.old → B.asked b base.new }
    ensures cause { HasCause (B.database base.old) (B.faults base.old) (B.faults base.new) result }
{
    let mut absent = Vec::new(alloc);
    for row in rows {
        let is_there = base.has_row(alloc, key, &row)?;
        put_if(&mut absent, row, !is_there)?;
    }
    Ok(RowSet::of_rows(absent))
}
