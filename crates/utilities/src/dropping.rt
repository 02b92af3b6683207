//! Permits and rules that go.

ghost use Rattle.std.specs.Prelude.{◌≡◌, ◌++◌, ◌∷◌, [], not, Some, Ok as Planned, IfOk};
ghost use Rattle.std.specs.List.{list_all};
ghost use Rattle.base_trait.specs.Causes.{HasCause as HasBaseCause};
ghost use Rattle.calculus.specs.Catalogue.{is_catalogue};
ghost use Rattle.calculus.specs.Database.{Db};
ghost use Rattle.calculus.specs.Lists.{has_number};
ghost use Rattle.calculus.specs.Replacement.{first_refusal};
ghost use Rattle.calculus.specs.declared.change.DbChange.TheVariants as change;
ghost use Rattle.calculus.specs.declared.request.Utility.TheVariants as utility;
ghost use Rattle.quel_meaning.specs.Planned.{dropped, has_view, may_not_grant, owner_refusals, planned};
ghost use Rattle.utilities.specs.Causes.{HasCauseBy};

use crate::UtilFault;
use crate::listed::{dropped, listed_refusal};
use crate::owners::{owner_refusal, permitting_refusal};
use base_trait::{Base, BaseFault};
use calculus::{DbChange, Name, OutOfMemory, RelKey, TryCopy};
use memory::both;
use quel_refusals::{existing_permits, existing_rules};
use std::alloc::Global;

/// The change that takes away permits with these numbers, of those that stand.
fn permits_dropped(
    alloc: Global,
    rel: &RelKey,
    standing: Vec<u32>,
    numbers: &[u32],
) -> Result<DbChange, OutOfMemory>
    ensures { IfOk result (λ c. c ≡ change.DropPermits rel.now (dropped standing.items numbers.now)) }
{
    match both(rel.copy(alloc), dropped(alloc, standing, numbers)) {
        Ok((rel, numbers)) => Ok(DbChange::DropPermits { rel, numbers }),
        Err(error) => Err(error),
    }
}

/// The change that takes away rules with these numbers, of those that stand.
fn rules_dropped(
    alloc: Global,
    rel: &RelKey,
    standing: Vec<u32>,
    numbers: &[u32],
) -> Result<DbChange, OutOfMemory>
    ensures { IfOk result (λ c. c ≡ change.DropRules rel.now (dropped standing.items numbers.now)) }
{
    match both(rel.copy(alloc), dropped(alloc, standing, numbers)) {
        Ok((rel, numbers)) => Ok(DbChange::DropRules { rel, numbers }),
        Err(error) => Err(error),
    }
}

/// What refuses that permits go, where those with these numbers stand: their relation, or a listed
/// number that isn't one of these.
fn permits_refusal<B: Base>(
    alloc: Global,
    base: &mut B,
    user: &Name,
    rel: &RelKey,
    standing: &[u32],
    numbers: &[u32],
) -> Result<Option<u8>, BaseFault>
    ensures known { (db : Db) → B.schema base.old ≡ Some db
        → IfOk result (λ n. n ≡ first_refusal ((28, is_catalogue db rel.now) ∷ (26, has_view db rel.now) ∷ (24, may_not_grant db user.now rel.now) ∷ (19, not (list_all (has_number standing.now) numbers.now)) ∷ [])) }
    ensures kept { B.database base.new ≡ B.database base.old }
    ensures stays { (s : Db) → B.schema base.old ≡ Some s → B.schema base.new ≡ Some s }
    ensures asked { (b : B) → B.asked b base.old → B.asked b base.new }
    ensures cause { HasBaseCause (B.database base.old) (B.faults base.old) (B.faults base.new) result }
{
    match permitting_refusal(alloc, base, user, rel) {
        Ok(None) => Ok(listed_refusal(standing, numbers)),
        other => other,
    }
}

/// What refuses that rules go, where those with these numbers stand: their relation, or a listed
/// number that isn't one of these.
fn rules_refusal<B: Base>(
    alloc: Global,
    base: &mut B,
    user: &Name,
    rel: &RelKey,
    standing: &[u32],
    numbers: &[u32],
) -> Result<Option<u8>, BaseFault>
    ensures known { (db : Db) → B.schema base.old ≡ Some db
        → IfOk result (λ n. n ≡ first_refusal (owner_refusals db user.now rel.now ++ (19, not (list_all (has_number standing.now) numbers.now)) ∷ [])) }
    ensures kept { B.database base.new ≡ B.database base.old }
    ensures stays { (s : Db) → B.schema base.old ≡ Some s → B.schema base.new ≡ Some s }
    ensures asked { (b : B) → B.asked b base.old → B.asked b base.new }
    ensures cause { HasBaseCause (B.database base.old) (B.faults base.old) (B.faults base.new) result }
{
    match owner_refusal(alloc, base, user, rel) {
        Ok(None) => Ok(listed_refusal(standing, numbers)),
        other => other,
    }
}

/// The change that takes permits of a relation away, the listed ones or all, or what refuses it.
pub(crate) fn permits_gone<B: Base>(
    alloc: Global,
    base: &mut B,
    user: &Name,
    rel: &RelKey,
    numbers: &[u32],
) -> Result<DbChange, UtilFault>
    ensures change { (db : Db) → B.schema base.old ≡ Some db → IfOk result (λ c. planned db user.now (utility.DropPermits rel.now numbers.now) ≡ Planned c) }
    ensures kept { B.database base.new ≡ B.database base.old }
    ensures stays { (s : Db) → B.schema base.old ≡ Some s → B.schema base.new ≡ Some s }
    ensures asked { (b : B) → B.asked b base.old → B.asked b base.new }
    ensures cause { HasCauseBy user.now (utility.DropPermits rel.now numbers.now) (B.schema base.old) (B.database base.old) (B.faults base.old) (B.faults base.new) result }
{
    let standing = existing_permits(alloc, base, rel)?;
    match permits_refusal(alloc, base, user, rel, &standing, numbers) {
        Ok(None) => Ok(permits_dropped(alloc, rel, standing, numbers)?),
        Ok(Some(cause)) => Err(UtilFault::No(cause)),
        Err(fault) => Err(UtilFault::Base(fault)),
    }
}

/// The change that takes rules of a relation away, the listed ones or all, or what refuses it.
pub(crate) fn rules_gone<B: Base>(
    alloc: Global,
    base: &mut B,
    user: &Name,
    rel: &RelKey,
    numbers: &[u32],
) -> Result<DbChange, UtilFault>
    ensures change { (db : Db) → B.schema base.old ≡ Some db → IfOk result (λ c. planned db user.now (utility.DropRules rel.now numbers.now) ≡ Planned c) }
    ensures kept { B.database base.new ≡ B.database base.old }
    ensures stays { (s : Db) → B.schema base.old ≡ Some s → B.schema base.new ≡ Some s }
    ensures asked { (b : B) → B.asked b base.old → B.asked b base.new }
    ensures cause { HasCauseBy user.now (utility.DropRules rel.now numbers.now) (B.schema base.old) (B.database base.old) (B.faults base.old) (B.faults base.new) result }
{
    let standing = existing_rules(alloc, base, rel)?;
    match rules_refusal(alloc, base, user, rel, &standing, numbers) {
        Ok(None) => Ok(rules_dropped(alloc, rel, standing, numbers)?),
        Ok(Some(cause)) => Err(UtilFault::No(cause)),
        Err(fault) => Err(UtilFault::Base(fault)),
    }
}
