//! What an operation makes of the arguments of a group.

ghost use Rattle.std.specs.Prelude.{◌≡◌, IfOk, pos};
ghost use Rattle.calculus.specs.Aggregate.{fold_values, first_or, last_or, any_of};
ghost use Rattle.calculus.specs.Term.{number_value};
ghost use Rattle.aggregates.specs.Sums.{fold_shown, is_over_different};

use crate::averaging::average;
use crate::different::different;
use crate::number::number;
use crate::summing::total;
use calculus::{AggOp, OutOfMemory, TryCopy, Value};
use std::alloc::Global;

fn number_value(number: Option<i64>) -> Option<Value>
    ensures { result ≡ number_value number }
{
    match number {
        Some(number) => Some(Value::Int(number)),
        None => None,
    }
}

fn first_or(alloc: Global, none: &Value, values: &[Value]) -> Result<Value, OutOfMemory>
    ensures { IfOk result (λ v. v ≡ first_or none.now values.now) }
{
    match values.first() {
        Some(value) => value.copy(alloc),
        None => none.copy(alloc),
    }
}

fn last_or(alloc: Global, none: &Value, values: &[Value]) -> Result<Value, OutOfMemory>
    ensures { IfOk result (λ v. v ≡ last_or none.now values.now) }
{
    match values.last() {
        Some(value) => value.copy(alloc),
        None => none.copy(alloc),
    }
}

fn any_of(values: &[Value]) -> i64
    ensures { result ≡ pos (any_of values.now) }
{
    if values.is_empty() { 0 } else { 1 }
}

/// What an operation makes of these values, where `none` is the least and the greatest of no value.
/// The forms over different values get `values` without repeats, ascending, and so do the least and
/// the greatest.
fn folded(
    alloc: Global,
    op: AggOp,
    none: &Value,
    values: &[Value],
) -> Result<Option<Value>, OutOfMemory>
    ensures { IfOk result (λ v. v ≡ fold_shown op none.now values.now) }
{
    match op {
        AggOp::Count | AggOp::Countu => Ok(Some(Value::Int(values.len() as i64))),
        AggOp::Sum | AggOp::Sumu => Ok(number_value(number(total(values)))),
        AggOp::Avg | AggOp::Avgu => Ok(Some(Value::Int(average(values)))),
        AggOp::Min => Ok(Some(first_or(alloc, none, values)?)),
        AggOp::Max => Ok(Some(last_or(alloc, none, values)?)),
        AggOp::Any => Ok(Some(Value::Int(any_of(values)))),
    }
}

fn is_over_different(op: AggOp) -> bool
    ensures { result ≡ is_over_different op }
{
    match op {
        AggOp::Countu | AggOp::Sumu | AggOp::Avgu | AggOp::Min | AggOp::Max => true,
        AggOp::Count | AggOp::Sum | AggOp::Avg | AggOp::Any => false,
    }
}

/// What an operation makes of the arguments of a group, where `none` is the least and the greatest of
/// no value; a sum outside 64 bits is no value. The forms over different values, the least and the
/// greatest cost a sort.
pub fn fold_values(
    alloc: Global,
    op: AggOp,
    none: &Value,
    values: &[Value],
) -> Result<Option<Value>, OutOfMemory>
    ensures { IfOk result (λ v. v ≡ fold_values op none.now values.now) }
{
    if is_over_different(op) {
        let values = different(alloc, values)?;
        let value = folded(alloc, op, none, &values);
        drop(values);
        value
    } else {
        folded(alloc, op, none, values)
    }
}
