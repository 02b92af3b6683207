//! Conditions without variables, of which it is known whether they hold.

ghost use Rattle.std.specs.Prelude.{◌≡◌, [], ◌∷◌, true, false, IfOk};
ghost use Rattle.std.specs.List.{list_all};
ghost use Rattle.calculus.specs.Term.{holds, no_aggs};
ghost use Rattle.calculus.specs.Tree.{negated};
ghost use Rattle.calculus.specs.declared.query.QQual.{True};
ghost use Rattle.view_text.specs.ExpansionOf.{settled};

use crate::tree_parts::boxed;
use calculus::{OutOfMemory, QQual, RelKey};
use scalar_eval::{Assigned, holds};
use std::alloc::Global;

/// Whether a condition holds in which no variable has a row.
#[tactic(auto, using(crate::proofs::NoTables::without_tables))]
fn condition_holds(alloc: Global, condition: &QQual) -> Result<bool, OutOfMemory>
    ensures { IfOk result (λ b. b ≡ holds no_aggs condition.now []) }
{
    let none = Assigned::new(alloc);
    let truth = holds(alloc, condition, &none, &[]);
    drop(none);
    truth
}

/// Whether all of them hold, where no variable has a row.
fn conditions_hold(alloc: Global, conditions: &[QQual]) -> Result<bool, OutOfMemory>
    ensures { IfOk result (λ b. b ≡ list_all (λ q. holds no_aggs q []) conditions.now) }
{
    for condition in conditions {
        if !condition_holds(alloc, condition)? {
            return Ok(false);
        }
    }
    Ok(true)
}

/// What never holds.
#[tactic(auto, using(calculus::proofs::Forms::negated_is))]
fn never(alloc: Global) -> Result<QQual, OutOfMemory>
    ensures { IfOk result (λ q. q ≡ negated True) }
{
    match boxed(alloc, Ok(QQual::True)) {
        Ok(inner) => Ok(QQual::Not(inner)),
        Err(error) => Err(error),
    }
}

/// No condition, or one that never holds.
fn known(alloc: Global, holding: bool) -> Result<Vec<QQual>, OutOfMemory>
    ensures so { holding ≡ true → IfOk result (λ made. made.items ≡ []) }
    ensures not_so { holding ≡ false → IfOk result (λ made. made.items ≡ negated True ∷ []) }
{
    let mut made = Vec::new(alloc);
    if !holding {
        made.push(never(alloc)?)?;
    }
    Ok(made)
}

/// The conditions about these variables; where there is none, no condition if all hold, else one that
/// never holds.
#[tactic(auto, unfolding(crate::specs::ExpansionOf::settled))]
pub(crate) fn settled(
    alloc: Global,
    vars: &[RelKey],
    conditions: Vec<QQual>,
) -> Result<Vec<QQual>, OutOfMemory>
    ensures { IfOk result (λ made. made.items ≡ settled vars.now conditions.items) }
{
    if !vars.is_empty() {
        return Ok(conditions);
    }
    let holding = conditions_hold(alloc, &conditions);
    drop(conditions);
    match holding {
        Ok(holding) => known(alloc, holding),
        Err(error) => Err(error),
    }
}
