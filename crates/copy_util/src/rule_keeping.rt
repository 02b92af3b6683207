//! Rows that break no rule.

ghost use Rattle.std.specs.Prelude.{◌≡◌, [], ◌∷◌, ◌++◌, cond, filter, IfOk, OnOk};
ghost use Rattle.std.specs.List.{list_all};
ghost use Rattle.calculus.specs.Term.{holds, no_aggs};
ghost use Rattle.calculus.specs.declared.schema.Rule.{Rule as Stored};
ghost use Rattle.copy_util.specs.Rules.{keeps_all, some_if};

use calculus::{OutOfMemory, Row, Rule};
use scalar_eval::{Assigned, holds};
use std::alloc::Global;

/// Whether the assigned row keeps all of the rules. An aggregate has no value here.
fn keeps_all(alloc: Global, rules: &[Rule], at: &Assigned) -> Result<bool, OutOfMemory>
    ensures { IfOk result (λ b. b ≡ list_all (λ (r : Stored). holds no_aggs r.qual at.now) rules.now) }
{
    for rule in rules {
        if !holds(alloc, &rule.qual, at, &[])? {
            return Ok(false);
        }
    }
    Ok(true)
}

/// Puts the row behind the others, where this is so.
fn put_if(row: Option<Row>, is_so: bool, rows: &mut Vec<Row>) -> Result<(), OutOfMemory>
    ensures { OnOk result (rows.new.items ≡ rows.old.items ++ some_if is_so row) }
{
    if let Some(row) = row {
        if is_so {
            rows.push(row)?;
        }
    }
    Ok(())
}

/// Puts a row behind the others where it keeps all of the rules. `at` has room for the row, and no row
/// before and afterwards.
fn put_kept(
    alloc: Global,
    rules: &[Rule],
    row: Row,
    at: &mut Assigned,
    kept: &mut Vec<Row>,
) -> Result<(), OutOfMemory>
    requires none { at.old ≡ [] }
    ensures none { OnOk result (at.new ≡ []) }
    ensures kept { OnOk result (kept.new.items ≡ kept.old.items ++ cond (keeps_all rules.now row) (row ∷ []) []) }
{
    at.push(row)?;
    let keeps = keeps_all(alloc, rules, at)?;
    put_if(at.pop(), keeps, kept)
}

/// Those of the rows that keep all of the rules.
pub(crate) fn kept_rows(
    alloc: Global,
    rules: &[Rule],
    rows: Vec<Row>,
) -> Result<Vec<Row>, OutOfMemory>
    ensures { IfOk result (λ kept. kept.items ≡ filter (keeps_all rules.now) rows.items) }
{
    let mut at = Assigned::new(alloc);
    let mut kept = Vec::new(alloc);
    for row in rows {
        put_kept(alloc, rules, row, &mut at, &mut kept)?;
    }
    Ok(kept)
}
