//! Relations, views and indexes that go.

ghost use Rattle.std.specs.Prelude.{◌≡◌, ◌∷◌, [], Some, Ok as Planned, IfOk};
ghost use Rattle.std.specs.List.{list_any};
ghost use Rattle.base_trait.specs.Causes.{HasCause as HasBaseCause};
ghost use Rattle.base_trait.specs.Known.{is_named_by_view};
ghost use Rattle.calculus.specs.Catalogue.{is_catalogue};
ghost use Rattle.calculus.specs.Database.{Db};
ghost use Rattle.calculus.specs.Replacement.{first_refusal};
ghost use Rattle.calculus.specs.declared.change.DbChange.TheVariants as change;
ghost use Rattle.calculus.specs.declared.request.Utility.TheVariants as utility;
ghost use Rattle.quel_meaning.specs.Planned.{is_not_the_owner, is_in_use, planned};
ghost use Rattle.utilities.specs.Causes.{HasCauseBy};
ghost use Rattle.utilities.specs.Owning.{is_catalogue_of};

use crate::UtilFault;
use crate::owners::is_not_the_owner;
use base_trait::{Base, BaseFault};
use calculus::refusals::{IN_USE, IS_CATALOGUE, NOT_OWNER};
use calculus::{DbChange, List, Name, OutOfMemory, RelKey, TryCopy};
use quel_refusals::is_catalogue_name;
use std::alloc::Global;

/// Whether the key is that of a catalogue, where this is the administrator.
fn is_catalogue(dba: &Name, key: &RelKey) -> bool
    ensures { result ≡ is_catalogue_of dba.now key.now }
{
    let names = is_catalogue_name(&key.name);
    key.owner == *dba && names
}

/// Whether one of the keys is that of a catalogue, where this is the administrator.
fn has_catalogue(dba: &Name, rels: &[RelKey]) -> bool
    ensures { result ≡ list_any (is_catalogue_of dba.now) rels.now }
{
    rels.iter().any(|key| is_catalogue(dba, key))
}

/// Whether one of the keys is that of a catalogue.
fn some_catalogue<B: Base>(alloc: Global, base: &mut B, rels: &[RelKey]) -> Result<bool, BaseFault>
    ensures known { (db : Db) → B.schema base.old ≡ Some db → IfOk result (λ b. b ≡ list_any (is_catalogue db) rels.now) }
    ensures kept { B.database base.new ≡ B.database base.old }
    ensures stays { (s : Db) → B.schema base.old ≡ Some s → B.schema base.new ≡ Some s }
    ensures asked { (b : B) → B.asked b base.old → B.asked b base.new }
    ensures cause { HasBaseCause (B.database base.old) (B.faults base.old) (B.faults base.new) result }
{
    let dba = base.dba(alloc)?;
    Ok(has_catalogue(&dba, rels))
}

/// Whether the user is not the owner of one of the keys.
fn some_not_the_owners(user: &Name, rels: &[RelKey]) -> bool
    ensures { result ≡ list_any (is_not_the_owner user.now) rels.now }
{
    rels.iter().any(|key| is_not_the_owner(user, key))
}

/// Whether a view that is none of `all` names what has one of the keys.
fn some_named<B: Base>(
    alloc: Global,
    base: &mut B,
    all: &[RelKey],
    rels: &[RelKey],
) -> Result<bool, BaseFault>
    ensures known { (db : Db) → B.schema base.old ≡ Some db → IfOk result (λ b. b ≡ list_any (is_named_by_view db all.now) rels.now) }
    ensures kept { B.database base.new ≡ B.database base.old }
    ensures stays { (s : Db) → B.schema base.old ≡ Some s → B.schema base.new ≡ Some s }
    ensures asked { (b : B) → B.asked b base.old → B.asked b base.new }
    ensures cause { HasBaseCause (B.database base.old) (B.faults base.old) (B.faults base.new) result }
{
    for key in rels {
        let named = base.named_by_view(alloc, key, all)?;
        if named {
            return Ok(true);
        }
    }
    Ok(false)
}

/// Whether a view outside the keys names what has one of them.
fn is_in_use<B: Base>(alloc: Global, base: &mut B, rels: &[RelKey]) -> Result<bool, BaseFault>
    ensures known { (db : Db) → B.schema base.old ≡ Some db → IfOk result (λ b. b ≡ is_in_use db rels.now) }
    ensures kept { B.database base.new ≡ B.database base.old }
    ensures stays { (s : Db) → B.schema base.old ≡ Some s → B.schema base.new ≡ Some s }
    ensures asked { (b : B) → B.asked b base.old → B.asked b base.new }
    ensures cause { HasBaseCause (B.database base.old) (B.faults base.old) (B.faults base.new) result }
{
    some_named(alloc, base, rels, rels)
}

/// What refuses that what has the keys goes: a catalogue among them, one that is another's, or a view
/// that stays and names one of them.
fn destroying_refusal<B: Base>(
    alloc: Global,
    base: &mut B,
    user: &Name,
    rels: &[RelKey],
) -> Result<Option<u8>, BaseFault>
    ensures known { (db : Db) → B.schema base.old ≡ Some db
        → IfOk result (λ n. n ≡ first_refusal ((28, list_any (is_catalogue db) rels.now) ∷ (24, list_any (is_not_the_owner user.now) rels.now) ∷ (25, is_in_use db rels.now) ∷ [])) }
    ensures kept { B.database base.new ≡ B.database base.old }
    ensures stays { (s : Db) → B.schema base.old ≡ Some s → B.schema base.new ≡ Some s }
    ensures asked { (b : B) → B.asked b base.old → B.asked b base.new }
    ensures cause { HasBaseCause (B.database base.old) (B.faults base.old) (B.faults base.new) result }
{
    if some_catalogue(alloc, base, rels)? {
        return Ok(Some(IS_CATALOGUE));
    }
    if some_not_the_owners(user, rels) {
        return Ok(Some(NOT_OWNER));
    }
    if is_in_use(alloc, base, rels)? {
        return Ok(Some(IN_USE));
    }
    Ok(None)
}

/// The change that takes away what has the keys.
fn all_gone(alloc: Global, rels: &List<RelKey>) -> Result<DbChange, OutOfMemory>
    ensures { IfOk result (λ c. c ≡ change.Destroy rels.now) }
{
    match rels.copy(alloc) {
        Ok(rels) => Ok(DbChange::Destroy { rels }),
        Err(error) => Err(error),
    }
}

/// The change that takes relations, views and indexes away, or what refuses it.
pub(crate) fn destroyed<B: Base>(
    alloc: Global,
    base: &mut B,
    user: &Name,
    rels: &List<RelKey>,
) -> Result<DbChange, UtilFault>
    ensures change { (db : Db) → B.schema base.old ≡ Some db → IfOk result (λ c. planned db user.now (utility.Destroy rels.now) ≡ Planned c) }
    ensures kept { B.database base.new ≡ B.database base.old }
    ensures stays { (s : Db) → B.schema base.old ≡ Some s → B.schema base.new ≡ Some s }
    ensures asked { (b : B) → B.asked b base.old → B.asked b base.new }
    ensures cause { HasCauseBy user.now (utility.Destroy rels.now) (B.schema base.old) (B.database base.old) (B.faults base.old) (B.faults base.new) result }
{
    match destroying_refusal(alloc, base, user, rels.items()) {
        Ok(None) => Ok(all_gone(alloc, rels)?),
        Ok(Some(cause)) => Err(UtilFault::No(cause)),
        Err(fault) => Err(UtilFault::Base(fault)),
    }
}
