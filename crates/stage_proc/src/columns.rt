//! The columns of a query's table.

ghost use Rattle.std.specs.Prelude.{◌≡◌, IfOk, map};
ghost use Rattle.quel_meaning.specs.Tables.{column_of};

use calculus::{Column, OutOfMemory, Target, TryCopy};
use std::alloc::Global;

/// The column of a target.
fn column_of(alloc: Global, target: &Target) -> Result<Column, OutOfMemory>
    ensures { IfOk result (λ column. column ≡ column_of target.now) }
{
    let name = target.name.copy(alloc)?;
    let kind = target.kind;
    Ok(Column { name, kind })
}

/// The columns of targets, in their order.
pub(crate) fn columns_of(alloc: Global, targets: &[Target]) -> Result<Vec<Column>, OutOfMemory>
    ensures { IfOk result (λ columns. columns.items ≡ map column_of targets.now) }
{
    let mut columns = Vec::new(alloc);
    for target in targets {
        columns.push(column_of(alloc, target)?)?;
    }
    Ok(columns)
}
