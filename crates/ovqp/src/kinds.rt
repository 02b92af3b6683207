//! The kinds of the attributes of what stands under a key, of targets, and of the source of an aggregate.

ghost use Rattle.std.specs.Prelude.{◌≡◌, map, Some, IfOk};
ghost use Rattle.base_trait.specs.Causes.{HasCause};
ghost use Rattle.calculus.specs.Aggregate.{source_kinds};
ghost use Rattle.calculus.specs.Database.{Db};
ghost use Rattle.calculus.specs.QueryParts.{targets_of};
ghost use Rattle.calculus.specs.Stored.{attrs_in, kinds_at};

use base_trait::{Base, BaseFault};
use calculus::{AggSource, Attr, Kind, OutOfMemory, Query, RelInfo, RelKey, Target};
use std::alloc::Global;

/// The kinds of the attributes.
fn kinds_of(alloc: Global, attrs: &[Attr]) -> Result<Vec<Kind>, OutOfMemory>
    ensures { IfOk result (λ kinds. kinds.items ≡ map (λ a. a.kind) attrs.now) }
{
    let mut kinds = Vec::new(alloc);
    for attr in attrs {
        kinds.push(attr.kind)?;
    }
    Ok(kinds)
}

/// The kinds of the attributes of what may be there.
fn kinds_in(alloc: Global, info: &Option<RelInfo>) -> Result<Vec<Kind>, OutOfMemory>
    ensures { IfOk result (λ kinds. kinds.items ≡ map (λ a. a.kind) (attrs_in info.now)) }
{
    match info {
        Some(info) => kinds_of(alloc, info.attrs.items()),
        None => Ok(Vec::new(alloc)),
    }
}

/// The kinds of the attributes of the relation, view or catalogue under a key; none where an index
/// or nothing is there.
pub fn kinds_at<B: Base>(alloc: Global, base: &mut B, key: &RelKey) -> Result<Vec<Kind>, BaseFault>
    ensures known { (db : Db) → B.schema base.old ≡ Some db → IfOk result (λ kinds. kinds.items ≡ kinds_at db key.now) }
    ensures kept { B.database base.new ≡ B.database base.old }
    ensures stays { (s : Db) → B.schema base.old ≡ Some s → B.schema base.new ≡ Some s }
    ensures asked { (b : B) → B.asked b base.old → B.asked b base.new }
    ensures cause { HasCause (B.database base.old) (B.faults base.old) (B.faults base.new) result }
{
    let info = base.info(alloc, key)?;
    let kinds = kinds_in(alloc, &info);
    drop(info);
    Ok(kinds?)
}

/// The kinds of the targets.
pub fn target_kinds(alloc: Global, targets: &[Target]) -> Result<Vec<Kind>, OutOfMemory>
    ensures { IfOk result (λ kinds. kinds.items ≡ map (λ t. t.kind) targets.now) }
{
    let mut kinds = Vec::new(alloc);
    for target in targets {
        kinds.push(target.kind)?;
    }
    Ok(kinds)
}

/// The kinds of the targets of a query.
#[tactic(auto, using(crate::proofs::Parts::targets_is))]
fn query_kinds(alloc: Global, q: &Query) -> Result<Vec<Kind>, OutOfMemory>
    ensures { IfOk result (λ kinds. kinds.items ≡ map (λ t. t.kind) (targets_of q.now)) }
{
    target_kinds(alloc, q.targets.items())
}

/// The kinds of the attributes of the source of an aggregate.
#[tactic(auto, using(crate::proofs::Parts::rows_kinds))]
pub fn source_kinds<B: Base>(
    alloc: Global,
    base: &mut B,
    source: &AggSource,
) -> Result<Vec<Kind>, BaseFault>
    ensures known { (db : Db) → B.schema base.old ≡ Some db → IfOk result (λ kinds. kinds.items ≡ source_kinds db source.now) }
    ensures kept { B.database base.new ≡ B.database base.old }
    ensures stays { (s : Db) → B.schema base.old ≡ Some s → B.schema base.new ≡ Some s }
    ensures asked { (b : B) → B.asked b base.old → B.asked b base.new }
    ensures cause { HasCause (B.database base.old) (B.faults base.old) (B.faults base.new) result }
{
    match source {
        AggSource::Named(key) => kinds_at(alloc, base, key),
        AggSource::Rows(q) => Ok(query_kinds(alloc, q.get())?),
    }
}
