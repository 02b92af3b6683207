//! How many rows a change leaves.

ghost use Rattle.std.specs.Prelude.{◌≡◌, ◌+◌, ◌-◌, nat_lt, length, Some, IfOk};
ghost use Rattle.calculus.specs.Database.{Db};
ghost use Rattle.calculus.specs.Limits.{most_rows};
ghost use Rattle.calculus.specs.Stored.{rows_at};
ghost use Rattle.base_trait.specs.Causes.{HasCause};

use base_trait::{Base, BaseFault};
use calculus::limits::MOST_ROWS;
use calculus::{Change, RelKey};
use std::alloc::Global;

/// Whether a relation may not have so many rows.
pub(crate) fn are_too_many(rows: usize) -> bool
    ensures { result ≡ nat_lt most_rows rows }
{
    rows > MOST_ROWS
}

/// How many rows stand after the change, where so many stood before it.
fn rows_after(before: u32, change: &Change) -> usize
    ensures { result ≡ before + length change.now.add - length change.now.remove }
{
    let both = before as usize + change.add.rows().len();
    both.saturating_sub(change.remove.len())
}

/// How many rows stand after the change, counted by the number of those that the relation under a key
/// has.
pub(crate) fn rows_left<B: Base>(
    alloc: Global,
    base: &mut B,
    key: &RelKey,
    change: &Change,
) -> Result<usize, BaseFault>
    ensures known { (db : Db) → B.database base.old ≡ Some db
        → IfOk result (λ left. left ≡ length (rows_at db key.now) + length change.now.add - length change.now.remove) }
    ensures kept { B.database base.new ≡ B.database base.old }
    ensures stays { (s : Db) → B.schema base.old ≡ Some s → B.schema base.new ≡ Some s }
    ensures asked { (b : B) → B.asked b base.old → B.asked b base.new }
    ensures cause { HasCause (B.database base.old) (B.faults base.old) (B.faults base.new) result }
{
    let before = base.size(alloc, key)?;
    Ok(rows_after(before, change))
}
