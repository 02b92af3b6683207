//! Rows that are folded, sorted by their by-values, and the groups that they make.

ghost use Rattle.std.specs.Prelude.{◌≡◌, ◌≤◌, [], ◌∷◌, ◌++◌, length, filter, map, option_map, vec_items, Some, IfOk, OnOk};
ghost use Rattle.std.specs.Ordering.{is_eq};
ghost use Rattle.calculus.specs.declared.value.Value.{Value as Cell};
ghost use Rattle.calculus.specs.Aggregate.{fold_values};
ghost use Rattle.calculus.specs.Groups.{GroupsAscend};
ghost use Rattle.calculus.specs.Rows.{Row as Values};
ghost use Rattle.calculus.specs.Table.{in_groups};
ghost use Rattle.calculus.specs.Targets.{all_there};
ghost use Rattle.calculus.specs.Value.{row_cmp};
ghost use Rattle.aggregates.specs.Runs.{Rises, folded, leading, groups_of};

use crate::folding::fold_values;
use calculus::{AggOp, OutOfMemory, Row, TryCopy, Value};
use std::alloc::Global;

/// Sorts by the by-values; what has the same ones keeps its order.
fn sort(members: &mut Vec<(Row, Option<Value>)>) -> Result<(), OutOfMemory>
    ensures rises { OnOk result (Rises members.new.items) }
    ensures same { OnOk result ((by : Values) → filter (λ m. is_eq (row_cmp by m.0)) members.new.items ≡ filter (λ m. is_eq (row_cmp by m.0)) members.old.items) }
{
    members.sort_by(|left, right| left.0.compare(&right.0))?;
    Ok(())
}

/// How many of the first have these by-values.
fn leading(members: &[(Row, Option<Value>)], by: &Row) -> usize
    ensures many { result ≡ leading by.now members.now }
    ensures within { result ≤ length members.now }
{
    let mut many = 0;
    for member in members {
        if member.0.compare(by).is_ne() {
            return many;
        }
        many += 1;
    }
    many
}

/// The arguments; `None` where one has no value.
fn arguments(
    alloc: Global,
    members: &[(Row, Option<Value>)],
) -> Result<Option<Vec<Value>>, OutOfMemory>
    ensures { IfOk result (λ values. option_map vec_items values ≡ all_there (map (λ m. m.1) members.now)) }
{
    let mut values = Vec::new(alloc);
    for member in members {
        match &member.1 {
            Some(value) => values.push(value.copy(alloc)?)?,
            None => return Ok(None),
        }
    }
    Ok(Some(values))
}

/// What is made of the arguments; none where one has no value.
fn folded(
    alloc: Global,
    op: AggOp,
    none: &Value,
    members: &[(Row, Option<Value>)],
) -> Result<Option<Value>, OutOfMemory>
    ensures { IfOk result (λ v. v ≡ folded op none.now (map (λ m. m.1) members.now)) }
{
    match arguments(alloc, members)? {
        Some(values) => {
            let value = fold_values(alloc, op, none, &values);
            drop(values);
            value
        }
        None => Ok(None),
    }
}

/// Puts the group with these by-values behind the others.
fn put_group(
    alloc: Global,
    by: &Row,
    value: Option<Value>,
    groups: &mut Vec<(Row, Option<Value>)>,
) -> Result<(), OutOfMemory>
    ensures { OnOk result (groups.new.items ≡ groups.old.items ++ (by.now, value) ∷ []) }
{
    match by.copy(alloc) {
        Ok(by) => {
            groups.push((by, value))?;
            Ok(())
        }
        Err(error) => Err(error),
    }
}

/// Puts the group of these rows, which have by-values in common, behind the others.
fn put_folded(
    alloc: Global,
    op: AggOp,
    none: &Value,
    by: &Row,
    members: &[(Row, Option<Value>)],
    groups: &mut Vec<(Row, Option<Value>)>,
) -> Result<(), OutOfMemory>
    ensures { OnOk result (groups.new.items ≡ groups.old.items ++ (by.now, folded op none.now (map (λ m. m.1) members.now)) ∷ []) }
{
    match folded(alloc, op, none, members) {
        Ok(value) => put_group(alloc, by, value, groups),
        Err(error) => Err(error),
    }
}

/// The groups of rows, where those with the same by-values stand side by side, in their order.
fn groups_of(
    alloc: Global,
    op: AggOp,
    none: &Value,
    members: &[(Row, Option<Value>)],
) -> Result<Vec<(Row, Option<Value>)>, OutOfMemory>
    ensures { IfOk result (λ groups. groups.items ≡ groups_of op none.now members.now) }
{
    let mut groups = Vec::new(alloc);
    let mut rest = members;
    'runs: while let Some((first, _)) = rest.split_first() {
        let many = leading(rest, &first.0);
        let (run, behind) = rest.split_at(many);
        put_folded(alloc, op, none, &first.0, run, &mut groups)?;
        rest = behind;
    }
    Ok(groups)
}

/// The groups of these rows, by their by-values, which ascend. Costs a sort.
pub(crate) fn grouped(
    alloc: Global,
    op: AggOp,
    none: &Value,
    members: Vec<(Row, Option<Value>)>,
) -> Result<Vec<(Row, Option<Value>)>, OutOfMemory>
    ensures ascend { IfOk result (λ groups. GroupsAscend groups.items) }
    ensures found { (empty : Cell) → fold_values op none.now [] ≡ Some empty → (link : Values)
        → IfOk result (λ groups. in_groups empty groups.items link ≡ folded op none.now (map (λ m. m.1) (filter (λ m. is_eq (row_cmp link m.0)) members.items))) }
{
    let mut members = members;
    sort(&mut members)?;
    let groups = groups_of(alloc, op, none, &members);
    drop(members);
    groups
}
