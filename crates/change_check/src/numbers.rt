//! Permits and rules that go.

ghost use Rattle.std.specs.Prelude.{◌≡◌, ◌&&◌, nat_eq, IfOk, Some};
ghost use Rattle.std.specs.List.{list_all, list_any};
ghost use Rattle.base_trait.specs.Causes.{HasCause};
ghost use Rattle.calculus.specs.Database.{Db};
ghost use Rattle.calculus.specs.Lists.{differ_by, has_number};
ghost use Rattle.change_laws.specs.Fit.{permits_may_go, rules_may_go};

use crate::keys::is_relation;
use base_trait::{Base, BaseFault};
use calculus::RelKey;
use quel_refusals::{existing_permits, existing_rules};
use std::alloc::Global;

/// Whether the number is one of these.
pub(crate) fn has_number(numbers: &[u32], number: u32) -> bool
    ensures { result ≡ has_number numbers.now number }
{
    numbers.iter().any(|other| *other == number)
}

/// Whether one of these is the number.
fn is_among(number: u32, numbers: &[u32]) -> bool
    ensures { result ≡ list_any (nat_eq number) numbers.now }
{
    numbers.iter().any(|other| number == *other)
}

/// Whether no two of these numbers are the same.
fn numbers_differ(numbers: &[u32]) -> bool
    ensures { result ≡ differ_by nat_eq numbers.now }
{
    let mut rest = numbers;
    while let Some((first, others)) = rest.split_first() {
        if is_among(*first, others) {
            return false;
        }
        rest = others;
    }
    true
}

/// Whether each number is one of those that stand.
fn all_stand(standing: &[u32], numbers: &[u32]) -> bool
    ensures { result ≡ list_all (has_number standing.now) numbers.now }
{
    numbers.iter().all(|number| has_number(standing, *number))
}

/// Whether each number is one of those that stand, and none is listed twice.
fn are_listed_once(standing: &[u32], numbers: &[u32]) -> bool
    ensures { result ≡ (list_all (has_number standing.now) numbers.now && differ_by nat_eq numbers.now) }
{
    all_stand(standing, numbers) && numbers_differ(numbers)
}

/// Whether these permits of a relation may go: the relation is there, each number is that of one of
/// its permits, and none is listed twice.
#[tactic(auto, unfolding(change_laws::specs::Fit::permits_may_go, change_laws::specs::Fit::numbers_may_go))]
pub(crate) fn permits_may_go<B: Base>(
    alloc: Global,
    base: &mut B,
    rel: &RelKey,
    numbers: &[u32],
) -> Result<bool, BaseFault>
    ensures known { (db : Db) → B.schema base.old ≡ Some db → IfOk result (λ fit. fit ≡ permits_may_go db rel.now numbers.now) }
    ensures kept { B.database base.new ≡ B.database base.old }
    ensures stays { (s : Db) → B.schema base.old ≡ Some s → B.schema base.new ≡ Some s }
    ensures asked { (b : B) → B.asked b base.old → B.asked b base.new }
    ensures cause { HasCause (B.database base.old) (B.faults base.old) (B.faults base.new) result }
{
    if !is_relation(alloc, base, rel)? {
        return Ok(false);
    }
    let standing = existing_permits(alloc, base, rel)?;
    Ok(are_listed_once(&standing, numbers))
}

/// Whether these rules of a relation may go: the relation is there, each number is that of one of its
/// rules, and none is listed twice.
#[tactic(auto, unfolding(change_laws::specs::Fit::rules_may_go, change_laws::specs::Fit::numbers_may_go))]
pub(crate) fn rules_may_go<B: Base>(
    alloc: Global,
    base: &mut B,
    rel: &RelKey,
    numbers: &[u32],
) -> Result<bool, BaseFault>
    ensures known { (db : Db) → B.schema base.old ≡ Some db → IfOk result (λ fit. fit ≡ rules_may_go db rel.now numbers.now) }
    ensures kept { B.database base.new ≡ B.database base.old }
    ensures stays { (s : Db) → B.schema base.old ≡ Some s → B.schema base.new ≡ Some s }
    ensures asked { (b : B) → B.asked b base.old → B.asked b base.new }
    ensures cause { HasCause (B.database base.old) (B.faults base.old) (B.faults base.new) result }
{
    if !is_relation(alloc, base, rel)? {
        return Ok(false);
    }
    let standing = existing_rules(alloc, base, rel)?;
    Ok(are_listed_once(&standing, numbers))
}
