//! The change that makes a relation of the new rows of pairs.

ghost use Rattle.std.specs.Prelude.{◌≡◌, ◌≤◌, ◌<◌, [], map, length, IsFalse, IfOk, IfErr, OnOk};
ghost use Rattle.calculus.specs.declared.change.DbChange.TheVariants.{Create};
ghost use Rattle.calculus.specs.Limits.{most_rows};
ghost use Rattle.calculus.specs.Replacement.{after, contended, made_attr, made_info};
ghost use Rattle.update_change.specs.Causes.{IsCause};
ghost use Rattle.update_change.specs.declared.fault.UpdateFault.TheVariants.{TooMany as TooManyRows};

use crate::UpdateFault;
use crate::limit::are_too_many;
use crate::pairs_rows::pairs_rows;
use calculus::{
    Attr, DbChange, List, OutOfMemory, Pair, RelInfo, RowSet, Spec, Target, TryCopy, Update,
    made_kind,
};
use memory::both;
use std::alloc::Global;

/// The attribute that is made of a target.
fn made_attr(alloc: Global, target: &Target) -> Result<Attr, OutOfMemory>
    ensures { IfOk result (λ attr. attr ≡ made_attr target.now) }
{
    let name = target.name.copy(alloc)?;
    let kind = made_kind(target);
    Ok(Attr { name, kind })
}

/// The attributes that are made of targets.
fn made_attrs(alloc: Global, targets: &[Target]) -> Result<Vec<Attr>, OutOfMemory>
    ensures { IfOk result (λ attrs. attrs.items ≡ map made_attr targets.now) }
{
    let mut attrs = Vec::new(alloc);
    for target in targets {
        attrs.push(made_attr(alloc, target)?)?;
    }
    Ok(attrs)
}

/// What is known of the relation that an update makes.
#[tactic(auto, using(crate::proofs::TargetsRead::targets_is))]
fn made_info(alloc: Global, u: &Update) -> Result<RelInfo, OutOfMemory>
    ensures { IfOk result (λ info. info ≡ made_info u.now) }
{
    let attrs = made_attrs(alloc, u.query.targets.items());
    let (key, attrs) = both(u.rel.copy(alloc), attrs)?;
    Ok(RelInfo {
        key,
        spec: Spec::Heap,
        attrs: List::of(attrs),
        keys: List::of(Vec::new(alloc)),
    })
}

/// The rows, unless they are more than a relation may have.
fn few_rows(rows: RowSet) -> Result<RowSet, UpdateFault>
    ensures rows { IfOk result (λ few. few ≡ rows) }
    ensures few { OnOk result (length rows ≤ most_rows) }
    ensures cause { IfErr result (λ fault. (fault ≡ TooManyRows (length rows)) × (most_rows < length rows)) }
{
    let left = rows.len();
    if are_too_many(left) {
        drop(rows);
        return Err(UpdateFault::TooMany { rows: left as u64 });
    }
    Ok(rows)
}

/// The set of the new rows of pairs.
#[tactic(auto, using(crate::proofs::Few::all_new))]
fn rows_made(alloc: Global, pairs: Vec<Pair>) -> Result<RowSet, UpdateFault>
    ensures rows { IfOk result (λ rows. rows ≡ after [] pairs.items) }
    ensures uncontended { OnOk result (IsFalse (contended pairs.items)) }
    ensures few { OnOk result (length (after [] pairs.items) ≤ most_rows) }
    ensures cause { IfErr result (IsCause [] pairs.items) }
{
    match pairs_rows(alloc, pairs) {
        Ok((old, new)) => {
            drop(old);
            few_rows(new)
        }
        Err(fault) => Err(fault),
    }
}

/// The change that makes a relation with the set of the new rows. Asks no database.
pub(crate) fn relation_made(
    alloc: Global,
    u: &Update,
    pairs: Vec<Pair>,
) -> Result<DbChange, UpdateFault>
    ensures change { IfOk result (λ c. c ≡ Create (made_info u.now) (after [] pairs.items)) }
    ensures uncontended { OnOk result (IsFalse (contended pairs.items)) }
    ensures few { OnOk result (length (after [] pairs.items) ≤ most_rows) }
    ensures cause { IfErr result (IsCause [] pairs.items) }
{
    let rows = rows_made(alloc, pairs)?;
    match made_info(alloc, u) {
        Ok(info) => Ok(DbChange::Create {
            info,
            rows: List::of(rows.into_rows()),
        }),
        Err(OutOfMemory) => Err(UpdateFault::OutOfMemory),
    }
}
