//! The change that the pairs of an update make, as one set.

ghost use Rattle.std.specs.Prelude.{◌≡◌, ◌+◌, ◌-◌, ◌≤◌, length, IsFalse, IfOk, IfErr, OnOk};
ghost use Rattle.calculus.specs.Limits.{most_rows};
ghost use Rattle.calculus.specs.Replacement.{after, contended, without_rows};
ghost use Rattle.calculus.specs.Rows.{Ascends};
ghost use Rattle.update_change.specs.PairsCauses.{IsCause, IsContention};
ghost use Rattle.update_change.specs.Moves.{IsChange};

use crate::ChangeFault;
use crate::apart::rows_of_pairs;
use crate::limit::are_too_many;
use crate::moves::change_of;
use calculus::{Change, OutOfMemory, Pair, RowSet};
use memory::copies;
use std::alloc::Global;

/// How many rows stand after the change.
fn rows_left(rows: &RowSet, change: &Change) -> usize
    ensures left { result ≡ length rows.now + length change.now.add - length change.now.remove }
    ensures ascend { Ascends rows.now }
{
    let both = rows.rows().len() + change.add.rows().len();
    both.saturating_sub(change.remove.len())
}

/// The change that the pairs make of the rows, however many stand then.
fn change_made(alloc: Global, rows: &RowSet, pairs: &[Pair]) -> Result<Change, ChangeFault>
    ensures change { Ascends rows.now → IfOk result (IsChange rows.now pairs.now) }
    ensures uncontended { OnOk result (IsFalse (contended pairs.now)) }
    ensures cause { IfErr result (IsContention pairs.now) }
{
    match copies(alloc, pairs) {
        Ok(pairs) => match rows_of_pairs(alloc, pairs) {
            Ok((old, new)) => Ok(change_of(rows, old, new)),
            Err(fault) => Err(fault),
        },
        Err(OutOfMemory) => Err(ChangeFault::OutOfMemory),
    }
}

/// The change that the pairs of an update make of the rows before it. All pairs take effect at once,
/// on the rows before: the rows that go are those that don't stand after the update, and those that
/// come are those that didn't stand before it. It is refused where an old row has different new rows:
/// the fault carries the least such row, and the two least of its new rows, ascending. Else it is
/// refused where more rows would stand than a relation may have. A row that one pair deletes and
/// another replaces isn't contended: it goes, and its new row comes. Costs a copy of the pairs, sorts
/// of their rows, and a binary search or two for each of these.
pub fn set_replace(alloc: Global, rows: &RowSet, pairs: &[Pair]) -> Result<Change, ChangeFault>
    ensures removed { IfOk result (λ change. change.remove ≡ without_rows (after rows.now pairs.now) rows.now) }
    ensures added { IfOk result (λ change. change.add ≡ without_rows rows.now (after rows.now pairs.now)) }
    ensures uncontended { OnOk result (IsFalse (contended pairs.now)) }
    ensures few { OnOk result (length (after rows.now pairs.now) ≤ most_rows) }
    ensures cause { IfErr result (IsCause rows.now pairs.now) }
{
    let change = change_made(alloc, rows, pairs)?;
    let left = rows_left(rows, &change);
    if are_too_many(left) {
        drop(change);
        return Err(ChangeFault::TooMany { rows: left as u64 });
    }
    Ok(change)
}
