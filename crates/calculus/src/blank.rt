//! Values that nothing names, and where a value is put.

ghost use Rattle.std.specs.Prelude.{◌≡◌, [], map, slice_set, IfOk};
ghost use Rattle.calculus.specs.Pairs.{blank};
ghost use Rattle.calculus.specs.declared.value.Value.TheVariants.{Text as TextValue};

use crate::text::Text;
use crate::value::{Domain, Kind, Value};
use memory::OutOfMemory;
use std::alloc::Global;

/// The empty text.
pub fn empty_text(alloc: Global) -> Result<Value, OutOfMemory>
    ensures { IfOk result (λ value. value ≡ TextValue []) }
{
    match Text::of(alloc, &[])? {
        Some(text) => Ok(Value::Text(text)),
        None => Ok(Value::Int(0)),
    }
}

/// What an attribute of the kind holds that isn't named: 0, or the empty text.
fn blank(alloc: Global, kind: Kind) -> Result<Value, OutOfMemory>
    ensures { IfOk result (λ value. value ≡ blank kind) }
{
    match kind {
        Kind::Of(Domain::C(_)) => empty_text(alloc),
        _ => Ok(Value::Int(0)),
    }
}

/// The values of a row of these kinds in which no attribute is named: 0s and empty texts (the manual's
/// rule for `append`).
pub fn blank_values(alloc: Global, kinds: &[Kind]) -> Result<Vec<Value>, OutOfMemory>
    ensures { IfOk result (λ values. values.items ≡ map blank kinds.now) }
{
    let mut values = Vec::new(alloc);
    for kind in kinds {
        values.push(blank(alloc, *kind)?)?;
    }
    Ok(values)
}

/// Puts the value at the place of a row, counted from 0, where there is one.
pub fn put_at(place: u8, value: Value, row: &mut Vec<Value>)
    ensures { row.new.items ≡ slice_set row.old.items place value }
{
    let place = place as usize;
    if place < row.len() {
        row[place] = value;
    }
}
