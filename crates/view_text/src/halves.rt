//! Qualifications joined by halves, so that many of them make a tree of few levels.

ghost use Rattle.std.specs.Prelude.{◌≡◌, ◌≤◌, ◌∷◌, ◌++◌, IfOk, OnOk, length, reverse};
ghost use Rattle.calculus.specs.Tree.{negated};
ghost use Rattle.calculus.specs.declared.query.QQual.{QQual as Qualification, True};
ghost use Rattle.view_text.specs.Halves.{all_of, any_of, joined, paired};
ghost use Rattle.view_text.specs.Join.{join_by};

use crate::tree_parts::{boxed, boxed_both};
use calculus::{OutOfMemory, QQual};
use std::alloc::Global;

/// What joins two qualifications.
#[derive(Clone, Copy)]
enum Join {
    /// Both hold.
    And,
    /// At least one holds.
    Or,
}

/// The two, joined.
#[tactic(auto, using(calculus::proofs::Forms::both_is, calculus::proofs::Forms::either_is))]
fn joined(alloc: Global, join: Join, first: QQual, second: QQual) -> Result<QQual, OutOfMemory>
    ensures { IfOk result (λ q. q ≡ join_by join first second) }
{
    match boxed_both(alloc, Ok(first), Ok(second)) {
        Ok((first, second)) => Ok(match join {
            Join::And => QQual::And(first, second),
            Join::Or => QQual::Or(first, second),
        }),
        Err(error) => Err(error),
    }
}

/// The first, joined with the last of the others where there is one, which is taken from them.
#[tactic(auto, using(crate::proofs::HalvesForms::pair_step, crate::proofs::HalvesForms::alone_step))]
fn join_last(
    alloc: Global,
    join: Join,
    first: QQual,
    others: &mut Vec<QQual>,
) -> Result<QQual, OutOfMemory>
    ensures step { IfOk result (λ q. paired (join_by join) (first ∷ reverse others.old.items) ≡ q ∷ paired (join_by join) (reverse others.new.items)) }
    ensures fewer { length others.new.items ≤ length others.old.items }
{
    match others.pop() {
        Some(second) => joined(alloc, join, first, second),
        None => Ok(first),
    }
}

/// Takes the qualifications, the last first, and puts each two neighbours of them, joined, behind those
/// that are there.
fn join_neighbours(
    alloc: Global,
    join: Join,
    quals: &mut Vec<QQual>,
    pairs: &mut Vec<QQual>,
) -> Result<(), OutOfMemory>
    ensures { OnOk result (pairs.new.items ≡ pairs.old.items ++ paired (join_by join) (reverse quals.old.items)) }
{
    while let Some(first) = quals.pop() {
        pairs.push(join_last(alloc, join, first, quals)?)?;
    }
    Ok(())
}

/// Joins each two neighbours.
fn pair_up(alloc: Global, join: Join, quals: &mut Vec<QQual>) -> Result<(), OutOfMemory>
    ensures { OnOk result (quals.new.items ≡ paired (join_by join) quals.old.items) }
{
    let mut pairs = Vec::new(alloc);
    quals.reverse();
    match join_neighbours(alloc, join, quals, &mut pairs) {
        Ok(()) => {
            *quals = pairs;
            Ok(())
        }
        Err(error) => Err(error),
    }
}

/// Joins neighbours until there are no two.
#[tactic(auto, using(crate::proofs::HalvesForms::paired_joined, crate::proofs::HalvesForms::paired_fewer))]
fn join_all(alloc: Global, join: Join, quals: &mut Vec<QQual>) -> Result<(), OutOfMemory>
    ensures joined { OnOk result ((none : Qualification) → joined (join_by join) none quals.new.items ≡ joined (join_by join) none quals.old.items) }
    ensures few { OnOk result (length quals.new.items ≤ 1) }
{
    'rounds: while quals.len() > 1 {
        pair_up(alloc, join, quals)?;
    }
    Ok(())
}

/// A qualification that holds in no assignment.
#[tactic(auto, using(calculus::proofs::Forms::negated_is))]
fn never(alloc: Global) -> Result<QQual, OutOfMemory>
    ensures { IfOk result (λ q. q ≡ negated True) }
{
    match boxed(alloc, Ok(QQual::True)) {
        Ok(always) => Ok(QQual::Not(always)),
        Err(error) => Err(error),
    }
}

/// The qualification that all of these hold: `True` where there are none.
pub fn all_of(alloc: Global, mut quals: Vec<QQual>) -> Result<QQual, OutOfMemory>
    ensures { IfOk result (λ q. q ≡ all_of quals.items) }
{
    match join_all(alloc, Join::And, &mut quals) {
        Ok(()) => match quals.pop() {
            Some(all) => Ok(all),
            None => Ok(QQual::True),
        },
        Err(error) => Err(error),
    }
}

/// The qualification that at least one of these holds: one that never holds where there are none.
pub fn any_of(alloc: Global, mut quals: Vec<QQual>) -> Result<QQual, OutOfMemory>
    ensures { IfOk result (λ q. q ≡ any_of quals.items) }
{
    match join_all(alloc, Join::Or, &mut quals) {
        Ok(()) => match quals.pop() {
            Some(any) => Ok(any),
            None => never(alloc),
        },
        Err(error) => Err(error),
    }
}
