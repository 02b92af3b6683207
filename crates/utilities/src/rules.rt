//! Integrity rules that are made.

ghost use Rattle.std.specs.Prelude.{◌≡◌, ◌++◌, ◌∷◌, [], Some, Ok as Planned, IfOk};
ghost use Rattle.base_trait.specs.Causes.{HasCause as HasBaseCause};
ghost use Rattle.calculus.specs.Database.{Db};
ghost use Rattle.calculus.specs.Replacement.{first_refusal};
ghost use Rattle.calculus.specs.declared.change.DbChange.TheVariants as change;
ghost use Rattle.calculus.specs.declared.request.Utility.TheVariants as utility;
ghost use Rattle.quel_meaning.specs.Planned.{is_broken, owner_refusals, planned};
ghost use Rattle.utilities.specs.Causes.{HasCause};
ghost use Rattle.utilities.specs.Decided.{ButRows, IsDecided};

use crate::UtilFault;
use crate::meeting::is_broken;
use crate::numbering::next_number;
use crate::owners::owner_refusal;
use base_trait::{Base, BaseFault};
use calculus::refusals::{PAST_LIMIT, RULE_BROKEN};
use calculus::{DbChange, Name, OutOfMemory, RelKey, Rule, TryCopy};
use memory::both;
use quel_refusals::existing_rules;
use std::alloc::Global;

/// The rule with this number.
fn numbered(alloc: Global, rule: &Rule, number: u32) -> Result<Rule, OutOfMemory>
    ensures { IfOk result (λ r. r ≡ record rule.now { number = number }) }
{
    match rule.qual.copy(alloc) {
        Ok(qual) => Ok(Rule { number, qual }),
        Err(error) => Err(error),
    }
}

/// The change that makes a rule with this number.
fn rule_made(alloc: Global, rel: &RelKey, rule: &Rule, number: u32) -> Result<DbChange, OutOfMemory>
    ensures { IfOk result (λ c. c ≡ change.Rule rel.now (record rule.now { number = number })) }
{
    match both(rel.copy(alloc), numbered(alloc, rule, number)) {
        Ok((rel, rule)) => Ok(DbChange::Rule { rel, rule }),
        Err(error) => Err(error),
    }
}

/// The cause that a row breaks a rule, where one does.
fn broken(there: bool) -> Option<u8>
    ensures { result ≡ first_refusal ((27, there) ∷ []) }
{
    if there { Some(RULE_BROKEN) } else { None }
}

/// What refuses a rule for which there is a number: its relation, or a row that breaks it.
fn rule_refusal<B: Base>(
    alloc: Global,
    base: &mut B,
    user: &Name,
    rel: &RelKey,
    rule: &Rule,
) -> Result<Option<u8>, BaseFault>
    ensures by_schema { (s : Db) → B.schema base.old ≡ Some s → IfOk result (ButRows (first_refusal (owner_refusals s user.now rel.now))) }
    ensures known { (db : Db) → B.database base.old ≡ Some db → IfOk result (λ n. n ≡ first_refusal (owner_refusals db user.now rel.now ++ (27, is_broken db rel.now rule.now) ∷ [])) }
    ensures kept { B.database base.new ≡ B.database base.old }
    ensures stays { (s : Db) → B.schema base.old ≡ Some s → B.schema base.new ≡ Some s }
    ensures asked { (b : B) → B.asked b base.old → B.asked b base.new }
    ensures cause { HasBaseCause (B.database base.old) (B.faults base.old) (B.faults base.new) result }
{
    match owner_refusal(alloc, base, user, rel) {
        Ok(None) => {
            let there = is_broken(alloc, base, rel, rule)?;
            Ok(broken(there))
        }
        other => other,
    }
}

/// The change that makes a rule with the next number of its relation, or what refuses it.
pub(crate) fn rule_planned<B: Base>(
    alloc: Global,
    base: &mut B,
    user: &Name,
    rel: &RelKey,
    rule: &Rule,
) -> Result<DbChange, UtilFault>
    ensures by_schema { (s : Db) → B.schema base.old ≡ Some s → IsDecided s user.now (utility.Rule rel.now rule.now) result }
    ensures change { (db : Db) → B.database base.old ≡ Some db → IfOk result (λ c. planned db user.now (utility.Rule rel.now rule.now) ≡ Planned c) }
    ensures kept { B.database base.new ≡ B.database base.old }
    ensures stays { (s : Db) → B.schema base.old ≡ Some s → B.schema base.new ≡ Some s }
    ensures asked { (b : B) → B.asked b base.old → B.asked b base.new }
    ensures cause { HasCause user.now (utility.Rule rel.now rule.now) (B.database base.old) (B.faults base.old) (B.faults base.new) result }
{
    let standing = existing_rules(alloc, base, rel)?;
    let next = next_number(&standing);
    drop(standing);
    match next {
        None => Err(UtilFault::No(PAST_LIMIT)),
        Some(number) => match rule_refusal(alloc, base, user, rel, rule) {
            Ok(None) => Ok(rule_made(alloc, rel, rule, number)?),
            Ok(Some(cause)) => Err(UtilFault::No(cause)),
            Err(fault) => Err(UtilFault::Base(fault)),
        },
    }
}
