//! The numbers of the permits and rules that stand on a relation.

ghost use Rattle.std.specs.Prelude.{◌≡◌, map, IfOk, Some};
ghost use Rattle.base_trait.specs.Causes.{HasCause};
ghost use Rattle.calculus.specs.Change.{permit_numbers, rule_numbers};
ghost use Rattle.calculus.specs.Database.{Db};

use base_trait::{Base, BaseFault};
use calculus::{OutOfMemory, Permit, RelKey, Rule};
use std::alloc::Global;

/// The numbers of these permits.
fn permit_numbers(alloc: Global, permits: &[Permit]) -> Result<Vec<u32>, OutOfMemory>
    ensures { IfOk result (λ numbers. numbers.items ≡ map (λ p. p.number) permits.now) }
{
    let mut numbers = Vec::new(alloc);
    for permit in permits {
        numbers.push(permit.number)?;
    }
    Ok(numbers)
}

/// The numbers of these rules.
fn rule_numbers(alloc: Global, rules: &[Rule]) -> Result<Vec<u32>, OutOfMemory>
    ensures { IfOk result (λ numbers. numbers.items ≡ map (λ r. r.number) rules.now) }
{
    let mut numbers = Vec::new(alloc);
    for rule in rules {
        numbers.push(rule.number)?;
    }
    Ok(numbers)
}

/// The numbers of the permits that stand on a relation.
pub fn existing_permits<B: Base>(
    alloc: Global,
    base: &mut B,
    rel: &RelKey,
) -> Result<Vec<u32>, BaseFault>
    ensures known { (db : Db) → B.schema base.old ≡ Some db → IfOk result (λ numbers. numbers.items ≡ permit_numbers db rel.now) }
    ensures kept { B.database base.new ≡ B.database base.old }
    ensures stays { (s : Db) → B.schema base.old ≡ Some s → B.schema base.new ≡ Some s }
    ensures asked { (b : B) → B.asked b base.old → B.asked b base.new }
    ensures cause { HasCause (B.database base.old) (B.faults base.old) (B.faults base.new) result }
{
    let permits = base.permits(alloc, rel)?;
    let numbers = permit_numbers(alloc, &permits);
    drop(permits);
    Ok(numbers?)
}

/// The numbers of the rules that stand on a relation.
pub fn existing_rules<B: Base>(
    alloc: Global,
    base: &mut B,
    rel: &RelKey,
) -> Result<Vec<u32>, BaseFault>
    ensures known { (db : Db) → B.schema base.old ≡ Some db → IfOk result (λ numbers. numbers.items ≡ rule_numbers db rel.now) }
    ensures kept { B.database base.new ≡ B.database base.old }
    ensures stays { (s : Db) → B.schema base.old ≡ Some s → B.schema base.new ≡ Some s }
    ensures asked { (b : B) → B.asked b base.old → B.asked b base.new }
    ensures cause { HasCause (B.database base.old) (B.faults base.old) (B.faults base.new) result }
{
    let rules = base.rules(alloc, rel)?;
    let numbers = rule_numbers(alloc, &rules);
    drop(rules);
    Ok(numbers?)
}
