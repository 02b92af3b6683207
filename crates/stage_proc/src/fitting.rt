//! Whether values fit the attributes that they are for.

ghost use Rattle.std.specs.Prelude.{◌≡◌, Some, IfOk, OnOk};
ghost use Rattle.calculus.specs.Replacement.{is_of_kind, all_fit};
ghost use Rattle.stage_proc.specs.Given.{new_or, unfit_of};
ghost use Rattle.stage_proc.specs.Walk.{earlier};

use calculus::{Kind, OutOfMemory, Pair, Row, TryCopy, Value};
use std::alloc::Global;

/// Whether the value is one of the kind.
fn is_of_kind(value: &Value, kind: &Option<Kind>) -> bool
    ensures { result ≡ is_of_kind value.now kind.now }
{
    match kind {
        None => false,
        Some(Kind::Wide) => true,
        Some(Kind::Of(domain)) => value.fits(*domain),
    }
}

/// Whether each value is one of its kind.
fn all_fit(values: &[Value], wants: &[Option<Kind>]) -> bool
    ensures { result ≡ all_fit wants.now (Some values.now) }
{
    let Some((value, other_values)) = values.split_first() else {
        return true;
    };
    let Some((kind, other_wants)) = wants.split_first() else {
        return true;
    };
    is_of_kind(value, kind) && all_fit(other_values, other_wants)
}

/// The new row of a pair, or else these values.
fn new_or(alloc: Global, values: &Row, pair: &Pair) -> Result<Row, OutOfMemory>
    ensures { IfOk result (λ row. row ≡ new_or values.now pair.now) }
{
    match &pair.new {
        Some(row) => row.copy(alloc),
        None => values.copy(alloc),
    }
}

/// The new row of a pair, where one of the values doesn't fit.
fn unfit_of(
    alloc: Global,
    wants: &[Option<Kind>],
    pair: &Pair,
    values: &Row,
) -> Result<Option<Row>, OutOfMemory>
    ensures { IfOk result (λ row. row ≡ unfit_of wants.now pair.now values.now) }
{
    if all_fit(values.values(), wants) {
        return Ok(None);
    }
    Ok(Some(new_or(alloc, values, pair)?))
}

/// Keeps the first row of all that didn't fit.
fn keep_first(unfit: &mut Option<Row>, row: Option<Row>)
    ensures { unfit.new ≡ earlier unfit.old row }
{
    if unfit.is_none() {
        *unfit = row;
    }
}

/// Notes the new row of a pair where one of the values doesn't fit, unless one was noted before.
pub(crate) fn note_unfit(
    alloc: Global,
    wants: &[Option<Kind>],
    pair: &Pair,
    values: &Row,
    unfit: &mut Option<Row>,
) -> Result<(), OutOfMemory>
    ensures { OnOk result (unfit.new ≡ earlier unfit.old (unfit_of wants.now pair.now values.now)) }
{
    let row = unfit_of(alloc, wants, pair, values)?;
    keep_first(unfit, row);
    Ok(())
}
