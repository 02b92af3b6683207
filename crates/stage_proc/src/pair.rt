//! The pair of one assignment.

ghost use Rattle.std.specs.Prelude.{◌≡◌, slice_get, option_map, IfOk};
ghost use Rattle.calculus.specs.Pairs.{with_values};
ghost use Rattle.stage_proc.specs.Given.{old_in, pair_of};

use crate::new_row::{appended, with_values};
use calculus::{Kind, OutOfMemory, Pair, Row, TryCopy, Update, UpdateOp};
use scalar_eval::Assigned;
use std::alloc::Global;

/// The row of a variable, where it has one.
fn row_at(alloc: Global, at: &Assigned, v: u8) -> Result<Option<Row>, OutOfMemory>
    ensures { IfOk result (λ row. row ≡ slice_get at.now v) }
{
    match at.rows().get(v as usize) {
        Some(row) => Ok(Some(row.copy(alloc)?)),
        None => Ok(None),
    }
}

/// The row that an update replaces or deletes in an assignment.
pub(crate) fn old_row(alloc: Global, u: &Update, at: &Assigned) -> Result<Option<Row>, OutOfMemory>
    ensures { IfOk result (λ row. row ≡ old_in u.now at.now) }
{
    match u.op {
        UpdateOp::Append => Ok(None),
        UpdateOp::Replace => row_at(alloc, at, u.old),
        UpdateOp::Delete => row_at(alloc, at, u.old),
        UpdateOp::Into => Ok(None),
    }
}

/// The old row with these values at these places.
fn replaced(
    alloc: Global,
    places: &[u8],
    values: &Row,
    old: &Option<Row>,
) -> Result<Option<Row>, OutOfMemory>
    ensures { IfOk result (λ new. new ≡ option_map (with_values places.now values.now) old.now) }
{
    match old {
        Some(row) => Ok(Some(with_values(alloc, places, values, row)?)),
        None => Ok(None),
    }
}

/// The pair where the old row is this one and the targets have these values.
pub(crate) fn pair_of(
    alloc: Global,
    kinds: &[Kind],
    u: &Update,
    old: Option<Row>,
    values: &Row,
) -> Result<Pair, OutOfMemory>
    ensures { IfOk result (λ pair. pair ≡ pair_of kinds.now u.now old values.now) }
{
    match u.op {
        UpdateOp::Append => {
            drop(old);
            let row = appended(alloc, kinds, u.places.items(), values)?;
            Ok(Pair {
                old: None,
                new: Some(row),
            })
        }
        UpdateOp::Replace => match replaced(alloc, u.places.items(), values, &old) {
            Ok(new) => Ok(Pair { old, new }),
            Err(error) => {
                drop(old);
                Err(error)
            }
        },
        UpdateOp::Delete => Ok(Pair { old, new: None }),
        UpdateOp::Into => {
            drop(old);
            let row = values.copy(alloc)?;
            Ok(Pair {
                old: None,
                new: Some(row),
            })
        }
    }
}
