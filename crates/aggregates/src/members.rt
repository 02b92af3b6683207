//! The rows of a source that an aggregate folds, each with its by-values and its argument.

ghost use Rattle.std.specs.Prelude.{◌≡◌, [], ◌∷◌, ◌++◌, filter_map, IfOk, OnOk};
ghost use Rattle.calculus.specs.Term.{no_aggs, val, values_of};
ghost use Rattle.calculus.specs.Rows.{Row as Values};
ghost use Rattle.aggregates.specs.Members.{member, members};

use calculus::{OutOfMemory, QAgg, QTerm, Row, TryCopy, Value};
use scalar_eval::{Assigned, holds, value_of};
use std::alloc::Global;

/// The values of terms that hold no aggregate; `None` where one of them has none.
fn values_of(alloc: Global, terms: &[QTerm], at: &Assigned) -> Result<Option<Row>, OutOfMemory>
    ensures { IfOk result (λ values. values ≡ values_of terms.now at.now) }
{
    let mut values = Vec::new(alloc);
    for term in terms {
        match value_of(alloc, term, at, &[])? {
            Some(value) => values.push(value)?,
            None => return Ok(None),
        }
    }
    Ok(Some(Row::of(values)))
}

/// The by-values and the argument behind the others.
fn put_behind(
    members: &mut Vec<(Row, Option<Value>)>,
    by: Row,
    arg: Option<Value>,
) -> Result<(), OutOfMemory>
    ensures { OnOk result (members.new.items ≡ members.old.items ++ (by, arg) ∷ []) }
{
    members.push((by, arg))?;
    Ok(())
}

/// Puts the argument that the aggregate has in an assignment behind the others, with by-values.
fn put_with(
    alloc: Global,
    agg: &QAgg,
    at: &Assigned,
    by: Row,
    members: &mut Vec<(Row, Option<Value>)>,
) -> Result<(), OutOfMemory>
    ensures { OnOk result (members.new.items ≡ members.old.items ++ (by, val no_aggs agg.now.arg at.now) ∷ []) }
{
    match value_of(alloc, &agg.arg, at, &[]) {
        Ok(arg) => put_behind(members, by, arg),
        Err(error) => Err(error),
    }
}

/// Puts what the row gives to fold behind the others.
fn put_member(
    alloc: Global,
    agg: &QAgg,
    at: &Assigned,
    members: &mut Vec<(Row, Option<Value>)>,
) -> Result<(), OutOfMemory>
    ensures { (row : Values) → at.now ≡ row ∷ [] → OnOk result (members.new.items ≡ members.old.items ++ filter_map (member agg.now) (row ∷ [])) }
{
    if !holds(alloc, &agg.qual, at, &[])? {
        return Ok(());
    }
    match values_of(alloc, agg.by.items(), at)? {
        Some(by) => put_with(alloc, agg, at, by, members),
        None => Ok(()),
    }
}

/// The assignment of this row to the one variable.
pub(crate) fn assigned_to(alloc: Global, row: &Row) -> Result<Assigned, OutOfMemory>
    ensures { IfOk result (λ at. at ≡ row.now ∷ []) }
{
    let mut at = Assigned::new(alloc);
    at.push(row.copy(alloc)?)?;
    Ok(at)
}

/// Puts what the row gives to fold behind the others.
fn put_row(
    alloc: Global,
    agg: &QAgg,
    row: &Row,
    members: &mut Vec<(Row, Option<Value>)>,
) -> Result<(), OutOfMemory>
    ensures { OnOk result (members.new.items ≡ members.old.items ++ filter_map (member agg.now) (row.now ∷ [])) }
{
    let at = assigned_to(alloc, row)?;
    let put = put_member(alloc, agg, &at, members);
    drop(at);
    put
}

/// What the rows of the source give to fold, in their order: of each of which the inner qualification
/// holds and no by-value is missing, its by-values and its argument.
pub(crate) fn members(
    alloc: Global,
    agg: &QAgg,
    rows: &[Row],
) -> Result<Vec<(Row, Option<Value>)>, OutOfMemory>
    ensures { IfOk result (λ ms. ms.items ≡ members agg.now rows.now) }
{
    let mut members = Vec::new(alloc);
    for row in rows {
        put_row(alloc, agg, row, &mut members)?;
    }
    Ok(members)
}
