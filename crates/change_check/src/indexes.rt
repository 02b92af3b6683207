//! An index that is made.

ghost use Rattle.std.specs.Prelude.{◌≡◌, true, IfOk, Some};
ghost use Rattle.base_trait.specs.Causes.{HasCause};
ghost use Rattle.calculus.specs.Database.{Db, is_relation};
ghost use Rattle.calculus.specs.Keys.{key_of};
ghost use Rattle.calculus.specs.Stored.{attrs_at};
ghost use Rattle.change_laws.specs.Fit.{index_is_fit};

use crate::described::some_keys_stand;
use crate::keys::{key_is_free, relation};
use base_trait::{Base, BaseFault};
use calculus::{Attr, Name, OutOfMemory, RelKey};
use memory::both;
use std::alloc::Global;

/// The key of this owner and name.
fn key_of(alloc: Global, owner: &Name, name: &Name) -> Result<RelKey, OutOfMemory>
    ensures { IfOk result (λ key. key ≡ key_of owner.now name.now) }
{
    let (owner, name) = both(owner.copy(alloc), name.copy(alloc))?;
    Ok(RelKey { owner, name })
}

/// Whether an index of a relation with these attributes may be made: it has key attributes of them,
/// and its key is free.
fn index_has_parts<B: Base>(
    alloc: Global,
    base: &mut B,
    rel: &RelKey,
    attrs: &[Attr],
    name: &Name,
    keys: &[u8],
) -> Result<bool, BaseFault>
    ensures known { (db : Db) → B.schema base.old ≡ Some db → is_relation db rel.now ≡ true → attrs_at db rel.now ≡ attrs.now
        → IfOk result (λ fit. fit ≡ index_is_fit db rel.now name.now keys.now) }
    ensures kept { B.database base.new ≡ B.database base.old }
    ensures stays { (s : Db) → B.schema base.old ≡ Some s → B.schema base.new ≡ Some s }
    ensures asked { (b : B) → B.asked b base.old → B.asked b base.new }
    ensures cause { HasCause (B.database base.old) (B.faults base.old) (B.faults base.new) result }
{
    if !some_keys_stand(attrs, keys) {
        return Ok(false);
    }
    let key = key_of(alloc, &rel.owner, name)?;
    key_is_free(alloc, base, &key)
}

/// Whether an index of a relation may be made: the relation is there, the index has key attributes of
/// it, and its key is free.
pub(crate) fn index_is_fit<B: Base>(
    alloc: Global,
    base: &mut B,
    rel: &RelKey,
    name: &Name,
    keys: &[u8],
) -> Result<bool, BaseFault>
    ensures known { (db : Db) → B.schema base.old ≡ Some db → IfOk result (λ fit. fit ≡ index_is_fit db rel.now name.now keys.now) }
    ensures kept { B.database base.new ≡ B.database base.old }
    ensures stays { (s : Db) → B.schema base.old ≡ Some s → B.schema base.new ≡ Some s }
    ensures asked { (b : B) → B.asked b base.old → B.asked b base.new }
    ensures cause { HasCause (B.database base.old) (B.faults base.old) (B.faults base.new) result }
{
    match relation(alloc, base, rel)? {
        Some(info) => index_has_parts(alloc, base, rel, info.attrs.items(), name, keys),
        None => Ok(false),
    }
}
