//! Relations that are stored in another structure, and indexes that are made.

ghost use Rattle.std.specs.Prelude.{◌≡◌, Some, Ok as Planned, IfOk};
ghost use Rattle.calculus.specs.Database.{Db};
ghost use Rattle.calculus.specs.Structures.{is_keyed};
ghost use Rattle.calculus.specs.declared.change.DbChange.TheVariants as change;
ghost use Rattle.calculus.specs.declared.request.Utility.TheVariants as utility;
ghost use Rattle.quel_meaning.specs.Planned.{planned};
ghost use Rattle.quel_meaning.specs.Structures.{first_or_these, structure_keys};
ghost use Rattle.utilities.specs.Causes.{HasCauseBy};

use crate::UtilFault;
use crate::owners::owner_refusal;
use base_trait::Base;
use calculus::{DbChange, List, Name, OutOfMemory, RelKey, Spec, TryCopy};
use memory::both;
use std::alloc::Global;

/// Whether the rows of a relation of this structure lie by their keys.
fn is_keyed(to: Spec) -> bool
    ensures { result ≡ is_keyed to }
{
    match to {
        Spec::Heap => false,
        Spec::Hash => true,
        Spec::Isam => true,
        Spec::View => false,
        Spec::Index => false,
    }
}

/// The keys that are named, or the first attribute where none is.
fn first_or_these(keys: &[u8]) -> &[u8]
    ensures { result.now ≡ first_or_these keys.now }
{
    if keys.is_empty() { &[0] } else { keys }
}

/// The keys of a structure: those that are named, or the first attribute; none of a heap.
fn structure_keys(alloc: Global, to: Spec, keys: &[u8]) -> Result<List<u8>, OutOfMemory>
    ensures { IfOk result (λ ks. ks ≡ structure_keys to keys.now) }
{
    if !is_keyed(to) {
        return Ok(List::of(Vec::new(alloc)));
    }
    let keys = Vec::from_slice(alloc, first_or_these(keys))?;
    Ok(List::of(keys))
}

/// The change that stores a relation in another structure.
fn restructured(alloc: Global, rel: &RelKey, to: Spec, keys: &[u8]) -> Result<DbChange, OutOfMemory>
    ensures { IfOk result (λ c. c ≡ change.Modify rel.now to (structure_keys to keys.now)) }
{
    match both(rel.copy(alloc), structure_keys(alloc, to, keys)) {
        Ok((rel, keys)) => Ok(DbChange::Modify { rel, to, keys }),
        Err(error) => Err(error),
    }
}

/// The key of the relation that an index is for, and the index's name.
fn index_names(alloc: Global, rel: &RelKey, name: &Name) -> Result<(RelKey, Name), OutOfMemory>
    ensures { IfOk result (λ names. names ≡ (rel.now, name.now)) }
{
    both(rel.copy(alloc), name.copy(alloc))
}

/// The change that makes an index.
fn index_made(
    alloc: Global,
    rel: &RelKey,
    name: &Name,
    keys: &List<u8>,
) -> Result<DbChange, OutOfMemory>
    ensures { IfOk result (λ c. c ≡ change.Index rel.now name.now keys.now) }
{
    match both(index_names(alloc, rel, name), keys.copy(alloc)) {
        Ok(((base, name), keys)) => Ok(DbChange::Index { base, name, keys }),
        Err(error) => Err(error),
    }
}

/// The change that stores a relation in another structure, or what refuses it.
pub(crate) fn structure_planned<B: Base>(
    alloc: Global,
    base: &mut B,
    user: &Name,
    rel: &RelKey,
    to: Spec,
    keys: &[u8],
) -> Result<DbChange, UtilFault>
    ensures change { (db : Db) → B.schema base.old ≡ Some db → IfOk result (λ c. planned db user.now (utility.Modify rel.now to keys.now) ≡ Planned c) }
    ensures kept { B.database base.new ≡ B.database base.old }
    ensures stays { (s : Db) → B.schema base.old ≡ Some s → B.schema base.new ≡ Some s }
    ensures asked { (b : B) → B.asked b base.old → B.asked b base.new }
    ensures cause { HasCauseBy user.now (utility.Modify rel.now to keys.now) (B.schema base.old) (B.database base.old) (B.faults base.old) (B.faults base.new) result }
{
    match owner_refusal(alloc, base, user, rel) {
        Ok(None) => Ok(restructured(alloc, rel, to, keys)?),
        Ok(Some(cause)) => Err(UtilFault::No(cause)),
        Err(fault) => Err(UtilFault::Base(fault)),
    }
}

/// The change that makes an index of a relation, or what refuses it.
pub(crate) fn index_planned<B: Base>(
    alloc: Global,
    base: &mut B,
    user: &Name,
    rel: &RelKey,
    name: &Name,
    keys: &List<u8>,
) -> Result<DbChange, UtilFault>
    ensures change { (db : Db) → B.schema base.old ≡ Some db → IfOk result (λ c. planned db user.now (utility.Index rel.now name.now keys.now) ≡ Planned c) }
    ensures kept { B.database base.new ≡ B.database base.old }
    ensures stays { (s : Db) → B.schema base.old ≡ Some s → B.schema base.new ≡ Some s }
    ensures asked { (b : B) → B.asked b base.old → B.asked b base.new }
    ensures cause { HasCauseBy user.now (utility.Index rel.now name.now keys.now) (B.schema base.old) (B.database base.old) (B.faults base.old) (B.faults base.new) result }
{
    match owner_refusal(alloc, base, user, rel) {
        Ok(None) => Ok(index_made(alloc, rel, name, keys)?),
        Ok(Some(cause)) => Err(UtilFault::No(cause)),
        Err(fault) => Err(UtilFault::Base(fault)),
    }
}
