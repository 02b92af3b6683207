//! The different ones among values.

ghost use Rattle.std.specs.Prelude.{◌≡◌, [], ◌∷◌, ◌++◌, map, IfOk, OnOk};
ghost use Rattle.std.specs.List.{flat_map};
ghost use Rattle.calculus.specs.Aggregate.{different};
ghost use Rattle.aggregates.specs.Sums.{alone};

use calculus::{OutOfMemory, Row, RowSet, TryCopy, Value};
use std::alloc::Global;

/// The row of this value alone, behind the others.
fn put_alone(alloc: Global, value: &Value, rows: &mut Vec<Row>) -> Result<(), OutOfMemory>
    ensures { OnOk result (rows.new.items ≡ rows.old.items ++ alone value.now ∷ []) }
{
    let mut values = Vec::new(alloc);
    values.push(value.copy(alloc)?)?;
    rows.push(Row::of(values))?;
    Ok(())
}

/// The rows of one value each.
fn each_alone(alloc: Global, values: &[Value]) -> Result<Vec<Row>, OutOfMemory>
    ensures { IfOk result (λ rows. rows.items ≡ map alone values.now) }
{
    let mut rows = Vec::new(alloc);
    for value in values {
        put_alone(alloc, value, &mut rows)?;
    }
    Ok(rows)
}

/// The values of these rows, behind the others.
fn put_values(alloc: Global, row: &Row, values: &mut Vec<Value>) -> Result<(), OutOfMemory>
    ensures { OnOk result (values.new.items ≡ values.old.items ++ row.now) }
{
    for value in row.values() {
        values.push(value.copy(alloc)?)?;
    }
    Ok(())
}

/// The values in a set of rows, in its order.
fn values_in(alloc: Global, set: &RowSet) -> Result<Vec<Value>, OutOfMemory>
    ensures { IfOk result (λ values. values.items ≡ flat_map (λ row. row) set.now) }
{
    let mut values = Vec::new(alloc);
    for row in set.rows() {
        put_values(alloc, row, &mut values)?;
    }
    Ok(values)
}

/// The different ones among the values, ascending. Costs a sort.
pub(crate) fn different(alloc: Global, values: &[Value]) -> Result<Vec<Value>, OutOfMemory>
    ensures { IfOk result (λ vs. vs.items ≡ different values.now) }
{
    let set = RowSet::of_rows(each_alone(alloc, values)?);
    let found = values_in(alloc, &set);
    drop(set);
    let values = found?;
    Ok(values)
}
