//! Whether a pair stands.

ghost use Rattle.std.specs.Prelude.{◌≡◌, ◌&&◌, true, if◌then◌else◌, [], ◌∷◌, ◌++◌, filter, IsTrue, IfOk, OnOk};
ghost use Rattle.std.specs.List.{list_all};
ghost use Rattle.calculus.specs.declared.change.Pair.{Pair as Changed};
ghost use Rattle.calculus.specs.Pairs.{is_append};
ghost use Rattle.calculus.specs.Term.{Env, holds, no_aggs};
ghost use Rattle.stage_proc.specs.Given.{new_row_allowed, pair_allowed};

use calculus::{OutOfMemory, Pair, QQual, Row, Update, UpdateOp};
use scalar_eval::{Assigned, holds};
use std::alloc::Global;

/// Whether a check without aggregates holds.
#[tactic(auto, using(crate::proofs::Plain::untabled))]
fn check_holds(alloc: Global, check: &QQual, at: &Assigned) -> Result<bool, OutOfMemory>
    ensures { IfOk result (λ b. b ≡ holds no_aggs check.now at.now) }
{
    holds(alloc, check, at, &[])
}

/// Whether all checks hold.
fn all_hold(alloc: Global, checks: &[QQual], at: &Assigned) -> Result<bool, OutOfMemory>
    ensures { IfOk result (λ b. b ≡ list_all (λ q. holds no_aggs q at.now) checks.now) }
{
    for check in checks {
        if !check_holds(alloc, check, at)? {
            return Ok(false);
        }
    }
    Ok(true)
}

/// Whether an update's own cut lets a new row through: an append's has to hold.
fn cut_holds(alloc: Global, u: &Update, at: &Assigned) -> Result<bool, OutOfMemory>
    ensures { IfOk result (λ b. b ≡ (if is_append u.now.op then holds no_aggs u.now.new_cut at.now else true)) }
{
    match u.op {
        UpdateOp::Append => check_holds(alloc, &u.new_cut, at),
        UpdateOp::Replace => Ok(true),
        UpdateOp::Delete => Ok(true),
        UpdateOp::Into => Ok(true),
    }
}

/// Whether a new row is allowed, which is the only one of this assignment.
fn stands_at(alloc: Global, u: &Update, at: &Assigned) -> Result<bool, OutOfMemory>
    ensures { IfOk result (λ b. b ≡ (list_all (λ q. holds no_aggs q at.now) u.now.checks && (if is_append u.now.op then holds no_aggs u.now.new_cut at.now else true))) }
{
    if !all_hold(alloc, u.checks.items(), at)? {
        return Ok(false);
    }
    cut_holds(alloc, u, at)
}

/// Whether the new row stands, where there is one. It is lent to the test, and given back unless memory
/// is wanting.
fn new_allowed(alloc: Global, u: &Update, new: &mut Option<Row>) -> Result<bool, OutOfMemory>
    ensures row { OnOk result (new.new ≡ new.old) }
    ensures stands { IfOk result (λ b. b ≡ new_row_allowed u.now new.old) }
{
    let Some(row) = new.take() else {
        return Ok(true);
    };
    let mut at = Assigned::new(alloc);
    at.push(row)?;
    let stands = stands_at(alloc, u, &at);
    *new = at.pop();
    drop(at);
    stands
}

/// Puts the pair behind the others, where it stands: its new row has to.
fn put_tested(
    alloc: Global,
    u: &Update,
    pair: Pair,
    pairs: &mut Vec<Pair>,
) -> Result<(), OutOfMemory>
    ensures { OnOk result (pairs.new.items ≡ pairs.old.items ++ filter (pair_allowed u.now) (pair ∷ [])) }
{
    let mut pair = pair;
    match new_allowed(alloc, u, &mut pair.new) {
        Ok(true) => Ok(pairs.push(pair)?),
        Ok(false) => {
            drop(pair);
            Ok(())
        }
        Err(error) => {
            drop(pair);
            Err(error)
        }
    }
}

/// Whether the qualification is the one that holds in every assignment.
fn is_true(qual: &QQual) -> bool
    ensures { IsTrue result → (e : Env) → holds no_aggs qual.now e ≡ true }
{
    match qual {
        QQual::True => true,
        _ => false,
    }
}

/// Whether an update's own cut lets every new row through.
fn cuts_none(u: &Update) -> bool
    ensures { IsTrue result → (e : Env) → (if is_append u.now.op then holds no_aggs u.now.new_cut e else true) ≡ true }
{
    match u.op {
        UpdateOp::Append => is_true(&u.new_cut),
        UpdateOp::Replace => true,
        UpdateOp::Delete => true,
        UpdateOp::Into => true,
    }
}

/// Whether nothing is to be tested of a new row.
#[tactic(auto, using(crate::proofs::Untested::each_stands))]
fn all_stand(u: &Update) -> bool
    ensures { IsTrue result → (p : Changed) → pair_allowed u.now p ≡ true }
{
    u.checks.items().is_empty() && cuts_none(u)
}

/// Puts the pair behind the others, where it stands. Its new row is tested only where something is to be
/// tested of it, and is copied in no case.
#[tactic(auto, using(crate::proofs::Untested::kept_one))]
pub(crate) fn put_standing(
    alloc: Global,
    u: &Update,
    pair: Pair,
    pairs: &mut Vec<Pair>,
) -> Result<(), OutOfMemory>
    ensures { OnOk result (pairs.new.items ≡ pairs.old.items ++ filter (pair_allowed u.now) (pair ∷ [])) }
{
    if all_stand(u) {
        pairs.push(pair)?;
        return Ok(());
    }
    put_tested(alloc, u, pair, pairs)
}
