//! What stands under a key, and whether something new may.

ghost use Rattle.std.specs.Prelude.{◌≡◌, IfOk, Some, option_map};
ghost use Rattle.base_trait.specs.Causes.{HasCause};
ghost use Rattle.calculus.specs.Catalogue.{is_catalogue_name};
ghost use Rattle.calculus.specs.Database.{Db, entry_at, is_relation, is_there, relation_at};
ghost use Rattle.calculus.specs.IsDatabase.{key_is_named};
ghost use Rattle.change_check.specs.Kept.{kept_info};
ghost use Rattle.change_laws.specs.Fit.{key_is_free};

use base_trait::{Base, BaseFault};
use calculus::{RelInfo, RelKey, Spec};
use quel_refusals::{is_catalogue_name, is_full};
use std::alloc::Global;

/// What is known of the relation, view or index under a key.
pub(crate) fn entry<B: Base>(
    alloc: Global,
    base: &mut B,
    key: &RelKey,
) -> Result<Option<RelInfo>, BaseFault>
    ensures known { (db : Db) → B.schema base.old ≡ Some db → IfOk result (λ info. info ≡ entry_at db key.now) }
    ensures kept { B.database base.new ≡ B.database base.old }
    ensures stays { (s : Db) → B.schema base.old ≡ Some s → B.schema base.new ≡ Some s }
    ensures asked { (b : B) → B.asked b base.old → B.asked b base.new }
    ensures cause { HasCause (B.database base.old) (B.faults base.old) (B.faults base.new) result }
{
    if is_catalogue_name(&key.name) {
        return Ok(None);
    }
    base.info(alloc, key)
}

/// Whether a relation, a view or an index stands under a key.
pub(crate) fn is_there<B: Base>(
    alloc: Global,
    base: &mut B,
    key: &RelKey,
) -> Result<bool, BaseFault>
    ensures known { (db : Db) → B.schema base.old ≡ Some db → IfOk result (λ there. there ≡ is_there db key.now) }
    ensures kept { B.database base.new ≡ B.database base.old }
    ensures stays { (s : Db) → B.schema base.old ≡ Some s → B.schema base.new ≡ Some s }
    ensures asked { (b : B) → B.asked b base.old → B.asked b base.new }
    ensures cause { HasCause (B.database base.old) (B.faults base.old) (B.faults base.new) result }
{
    let info = entry(alloc, base, key)?;
    Ok(info.is_some())
}

/// What is known, where it is kept as a base relation is.
fn kept(info: Option<RelInfo>) -> Option<RelInfo>
    ensures { result ≡ kept_info info }
{
    match info {
        None => None,
        Some(info) => match info.spec {
            Spec::Heap => Some(info),
            Spec::Hash => Some(info),
            Spec::Isam => Some(info),
            Spec::View => None,
            Spec::Index => None,
        },
    }
}

/// What is known of the base relation under a key; `None` exactly where none stands there.
pub(crate) fn relation<B: Base>(
    alloc: Global,
    base: &mut B,
    key: &RelKey,
) -> Result<Option<RelInfo>, BaseFault>
    ensures known { (db : Db) → B.schema base.old ≡ Some db → IfOk result (λ info. info ≡ option_map (λ r. r.info) (relation_at db key.now)) }
    ensures kept { B.database base.new ≡ B.database base.old }
    ensures stays { (s : Db) → B.schema base.old ≡ Some s → B.schema base.new ≡ Some s }
    ensures asked { (b : B) → B.asked b base.old → B.asked b base.new }
    ensures cause { HasCause (B.database base.old) (B.faults base.old) (B.faults base.new) result }
{
    Ok(kept(entry(alloc, base, key)?))
}

/// Whether a base relation stands under a key.
#[tactic(auto, using(crate::proofs::Kept::there_where_known))]
pub fn is_relation<B: Base>(alloc: Global, base: &mut B, key: &RelKey) -> Result<bool, BaseFault>
    ensures known { (db : Db) → B.schema base.old ≡ Some db → IfOk result (λ there. there ≡ is_relation db key.now) }
    ensures kept { B.database base.new ≡ B.database base.old }
    ensures stays { (s : Db) → B.schema base.old ≡ Some s → B.schema base.new ≡ Some s }
    ensures asked { (b : B) → B.asked b base.old → B.asked b base.new }
    ensures cause { HasCause (B.database base.old) (B.faults base.old) (B.faults base.new) result }
{
    let info = relation(alloc, base, key)?;
    Ok(info.is_some())
}

/// Whether owner and name are names, the latter no catalogue's.
fn is_named(key: &RelKey) -> bool
    ensures { result ≡ key_is_named key.now }
{
    let _owner = key.owner.bytes();
    let _name = key.name.bytes();
    !is_catalogue_name(&key.name)
}

/// Whether something may be made under the key: its name is no catalogue's and is not in use, and
/// there is room for one more.
#[tactic(auto, unfolding(change_laws::specs::Fit::key_is_free))]
pub(crate) fn key_is_free<B: Base>(
    alloc: Global,
    base: &mut B,
    key: &RelKey,
) -> Result<bool, BaseFault>
    ensures known { (db : Db) → B.schema base.old ≡ Some db → IfOk result (λ free. free ≡ key_is_free db key.now) }
    ensures kept { B.database base.new ≡ B.database base.old }
    ensures stays { (s : Db) → B.schema base.old ≡ Some s → B.schema base.new ≡ Some s }
    ensures asked { (b : B) → B.asked b base.old → B.asked b base.new }
    ensures cause { HasCause (B.database base.old) (B.faults base.old) (B.faults base.new) result }
{
    if !is_named(key) {
        return Ok(false);
    }
    if is_there(alloc, base, key)? {
        return Ok(false);
    }
    Ok(!is_full(base)?)
}
