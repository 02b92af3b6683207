//! An update with the rules of the relation that it changes.

ghost use Rattle.std.specs.Prelude.{◌≡◌, ◌++◌, map, Some, IfOk, OnOk};
ghost use Rattle.base_trait.specs.Causes.{HasCause};
ghost use Rattle.calculus.specs.Database.{Db};
ghost use Rattle.calculus.specs.Pairs.{ruled};

use base_trait::{Base, BaseFault};
use calculus::{List, OutOfMemory, QQual, Rule, TryCopy, Update, UpdateOp};
use std::alloc::Global;
use std::mem::replace;

/// Puts what the rules ask of a row behind what is there.
fn put_rules(alloc: Global, rules: &[Rule], quals: &mut Vec<QQual>) -> Result<(), OutOfMemory>
    ensures { OnOk result (quals.new.items ≡ quals.old.items ++ map (λ r. r.qual) rules.now) }
{
    for rule in rules {
        quals.push(rule.qual.copy(alloc)?)?;
    }
    Ok(())
}

/// What the rules ask of a row, and behind it these checks.
fn with_checks(
    alloc: Global,
    rules: &[Rule],
    checks: List<QQual>,
) -> Result<List<QQual>, OutOfMemory>
    ensures { IfOk result (λ all. all ≡ map (λ r. r.qual) rules.now ++ checks) }
{
    let mut all = Vec::new(alloc);
    put_rules(alloc, rules, &mut all)?;
    let mut own = checks.into_items();
    all.append(&mut own)?;
    Ok(List::of(all))
}

/// The update with these rules among its checks.
fn with_rules(alloc: Global, rules: &[Rule], mut u: Update) -> Result<Update, OutOfMemory>
    ensures { IfOk result (λ made. made ≡ record u { checks = map (λ r. r.qual) rules.now ++ u.checks }) }
{
    let own = replace(&mut u.checks, List::of(Vec::new(alloc)));
    u.checks = with_checks(alloc, rules, own)?;
    Ok(u)
}

/// The update with the rules of the relation that it changes among its checks: each new row has to meet
/// them. What makes a relation stays as it is, as that has no rules yet.
#[tactic(auto, unfolding(calculus::specs::Pairs::ruled))]
pub fn add_rules<B: Base>(alloc: Global, u: Update, base: &mut B) -> Result<Update, BaseFault>
    ensures known { (db : Db) → B.schema base.old ≡ Some db → IfOk result (λ made. made ≡ ruled db u) }
    ensures by_schema { (s : Db) → B.schema base.new ≡ Some s → IfOk result (λ made. made ≡ ruled s u) }
    ensures kept { B.database base.new ≡ B.database base.old }
    ensures stays { (s : Db) → B.schema base.old ≡ Some s → B.schema base.new ≡ Some s }
    ensures asked { (b : B) → B.asked b base.old → B.asked b base.new }
    ensures cause { HasCause (B.database base.old) (B.faults base.old) (B.faults base.new) result }
{
    match u.op {
        UpdateOp::Into => Ok(u),
        UpdateOp::Append | UpdateOp::Replace | UpdateOp::Delete => {
            let rules = base.rules(alloc, &u.rel)?;
            Ok(with_rules(alloc, &rules, u)?)
        }
    }
}
