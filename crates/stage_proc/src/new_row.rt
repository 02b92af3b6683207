//! New rows.

ghost use Rattle.std.specs.Prelude.{◌≡◌, map, IfOk, OnOk};
ghost use Rattle.calculus.specs.Pairs.{blank, with_values};

use calculus::{Kind, OutOfMemory, Row, TryCopy, Value, blank_values, put_at};
use memory::copies;
use std::alloc::Global;

/// Puts the values at the places, one after the other.
fn put_values(
    alloc: Global,
    places: &[u8],
    values: &[Value],
    row: &mut Vec<Value>,
) -> Result<(), OutOfMemory>
    ensures { OnOk result (row.new.items ≡ with_values places.now values.now row.old.items) }
{
    let Some((place, other_places)) = places.split_first() else {
        return Ok(());
    };
    let Some((value, other_values)) = values.split_first() else {
        return Ok(());
    };
    put_at(*place, value.copy(alloc)?, row);
    put_values(alloc, other_places, other_values, row)
}

/// The row in which these values are put at these places.
fn with_put(alloc: Global, places: &[u8], values: &Row, row: Vec<Value>) -> Result<Row, OutOfMemory>
    ensures { IfOk result (λ new. new ≡ with_values places.now values.now row.items) }
{
    let mut row = row;
    match put_values(alloc, places, values.values(), &mut row) {
        Ok(()) => Ok(Row::of(row)),
        Err(error) => Err(error),
    }
}

/// The row with these values at these places.
pub(crate) fn with_values(
    alloc: Global,
    places: &[u8],
    values: &Row,
    row: &Row,
) -> Result<Row, OutOfMemory>
    ensures { IfOk result (λ new. new ≡ with_values places.now values.now row.now) }
{
    match copies(alloc, row.values()) {
        Ok(new) => with_put(alloc, places, values, new),
        Err(error) => Err(error),
    }
}

/// The row that an append puts: what it doesn't name is blank.
pub(crate) fn appended(
    alloc: Global,
    kinds: &[Kind],
    places: &[u8],
    values: &Row,
) -> Result<Row, OutOfMemory>
    ensures { IfOk result (λ new. new ≡ with_values places.now values.now (map blank kinds.now)) }
{
    match blank_values(alloc, kinds) {
        Ok(new) => with_put(alloc, places, values, new),
        Err(error) => Err(error),
    }
}
