//! Permits that are made.

ghost use Rattle.std.specs.Prelude.{◌≡◌, Some, Ok as Planned, IfOk};
ghost use Rattle.calculus.specs.Database.{Db};
ghost use Rattle.calculus.specs.declared.change.DbChange.TheVariants as change;
ghost use Rattle.calculus.specs.declared.request.Utility.TheVariants as utility;
ghost use Rattle.quel_meaning.specs.Planned.{planned};
ghost use Rattle.utilities.specs.Causes.{HasCauseBy};

use crate::UtilFault;
use crate::numbering::next_number;
use crate::owners::permitting_refusal;
use base_trait::Base;
use calculus::refusals::PAST_LIMIT;
use calculus::{DbChange, Name, OutOfMemory, Permit, RelKey, TryCopy};
use memory::both;
use quel_refusals::existing_permits;
use std::alloc::Global;

/// The permit with this number.
fn numbered(alloc: Global, permit: &Permit, number: u32) -> Result<Permit, OutOfMemory>
    ensures { IfOk result (λ p. p ≡ record permit.now { number = number }) }
{
    let mut permit = permit.copy(alloc)?;
    permit.number = number;
    Ok(permit)
}

/// The change that makes a permit with this number.
fn permit_made(
    alloc: Global,
    rel: &RelKey,
    permit: &Permit,
    number: u32,
) -> Result<DbChange, OutOfMemory>
    ensures { IfOk result (λ c. c ≡ change.Permit rel.now (record permit.now { number = number })) }
{
    match both(rel.copy(alloc), numbered(alloc, permit, number)) {
        Ok((rel, permit)) => Ok(DbChange::Permit { rel, permit }),
        Err(error) => Err(error),
    }
}

/// The change that makes a permit with the next number of its relation, or what refuses it.
pub(crate) fn permit_planned<B: Base>(
    alloc: Global,
    base: &mut B,
    user: &Name,
    rel: &RelKey,
    permit: &Permit,
) -> Result<DbChange, UtilFault>
    ensures change { (db : Db) → B.schema base.old ≡ Some db → IfOk result (λ c. planned db user.now (utility.Permit rel.now permit.now) ≡ Planned c) }
    ensures kept { B.database base.new ≡ B.database base.old }
    ensures stays { (s : Db) → B.schema base.old ≡ Some s → B.schema base.new ≡ Some s }
    ensures asked { (b : B) → B.asked b base.old → B.asked b base.new }
    ensures cause { HasCauseBy user.now (utility.Permit rel.now permit.now) (B.schema base.old) (B.database base.old) (B.faults base.old) (B.faults base.new) result }
{
    let standing = existing_permits(alloc, base, rel)?;
    let next = next_number(&standing);
    drop(standing);
    match next {
        None => Err(UtilFault::No(PAST_LIMIT)),
        Some(number) => match permitting_refusal(alloc, base, user, rel) {
            Ok(None) => Ok(permit_made(alloc, rel, permit, number)?),
            Ok(Some(cause)) => Err(UtilFault::No(cause)),
            Err(fault) => Err(UtilFault::Base(fault)),
        },
    }
}
