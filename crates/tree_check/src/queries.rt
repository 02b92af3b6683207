//! Whether the kinds in the query of an update fit.

ghost use Rattle.std.specs.Prelude.{◌≡◌, ◌&&◌, map, vec_items, IfOk, Some};
ghost use Rattle.std.specs.List.{list_all};
ghost use Rattle.base_trait.specs.Causes.{HasCause};
ghost use Rattle.calculus.specs.Database.{Db};
ghost use Rattle.calculus.specs.IsDatabase.{is_kind, var_kinds};
ghost use Rattle.calculus.specs.Kinds.{comparable};
ghost use Rattle.quel_meaning.specs.Fit.{update_kinds_fit};
ghost use Rattle.quel_meaning.specs.KindsInQueries.{kind_in_query};

use base_trait::{Base, BaseFault};
use calculus::{Kind, Query, Target, comparable};
use change_check::is_kind;
use quel_refusals::{kind_in_query, kinds_fit_in_query, var_kinds};
use std::alloc::Global;

/// Whether the kinds of targets are ones.
fn are_kinds(targets: &[Target]) -> bool
    ensures { result ≡ list_all (λ t. is_kind t.kind) targets.now }
{
    targets.iter().all(|target| is_kind(target.kind))
}

/// Whether each of these few targets and its term are both numbers or both texts.
fn targets_compare<B: Base>(
    alloc: Global,
    base: &mut B,
    targets: &[Target],
    vars: &[Vec<Kind>],
) -> Result<bool, BaseFault>
    ensures known { (db : Db) → B.schema base.old ≡ Some db → IfOk result (λ fit. fit ≡ list_all (λ t. comparable (kind_in_query db t.term (map vec_items vars.now)) (Some t.kind)) targets.now) }
    ensures kept { B.database base.new ≡ B.database base.old }
    ensures stays { (s : Db) → B.schema base.old ≡ Some s → B.schema base.new ≡ Some s }
    ensures asked { (b : B) → B.asked b base.old → B.asked b base.new }
    ensures cause { HasCause (B.database base.old) (B.faults base.old) (B.faults base.new) result }
{
    let Some((target, others)) = targets.split_first() else {
        return Ok(true);
    };
    let kind = kind_in_query(alloc, base, &target.term, vars)?;
    if !comparable(kind, Some(target.kind)) {
        return Ok(false);
    }
    targets_compare(alloc, base, others, vars)
}

/// Whether the kinds in the query of an update fit, where its variables have attributes of these kinds.
fn changes_fit_over<B: Base>(
    alloc: Global,
    base: &mut B,
    q: &Query,
    vars: &[Vec<Kind>],
) -> Result<bool, BaseFault>
    ensures known { (db : Db) → B.schema base.old ≡ Some db → var_kinds db q.now ≡ map vec_items vars.now → IfOk result (λ fit. fit ≡ update_kinds_fit db q.now) }
    ensures kept { B.database base.new ≡ B.database base.old }
    ensures stays { (s : Db) → B.schema base.old ≡ Some s → B.schema base.new ≡ Some s }
    ensures asked { (b : B) → B.asked b base.old → B.asked b base.new }
    ensures cause { HasCause (B.database base.old) (B.faults base.old) (B.faults base.new) result }
{
    let targets = q.targets.items();
    if !are_kinds(targets) {
        return Ok(false);
    }
    if !targets_compare(alloc, base, targets, vars)? {
        return Ok(false);
    }
    kinds_fit_in_query(alloc, base, &q.qual, vars)
}

/// Whether the targets of an update's query, which are few, are of kinds, each and its term are both
/// numbers or both texts, and so are the sides of each comparison.
pub(crate) fn update_kinds_fit<B: Base>(
    alloc: Global,
    base: &mut B,
    q: &Query,
) -> Result<bool, BaseFault>
    ensures known { (db : Db) → B.schema base.old ≡ Some db → IfOk result (λ fit. fit ≡ update_kinds_fit db q.now) }
    ensures kept { B.database base.new ≡ B.database base.old }
    ensures stays { (s : Db) → B.schema base.old ≡ Some s → B.schema base.new ≡ Some s }
    ensures asked { (b : B) → B.asked b base.old → B.asked b base.new }
    ensures cause { HasCause (B.database base.old) (B.faults base.old) (B.faults base.new) result }
{
    let kinds = var_kinds(alloc, base, q.vars.items())?;
    let fit = changes_fit_over(alloc, base, q, &kinds);
    drop(kinds);
    fit
}
