//! The relation that an update changes or makes.

ghost use Rattle.std.specs.Prelude.{◌≡◌, ◌&&◌, map, nat_eq, slice_get, IfOk, Some};
ghost use Rattle.base_trait.specs.Causes.{HasCause};
ghost use Rattle.calculus.specs.Database.{Db, is_relation};
ghost use Rattle.calculus.specs.IsDatabase.{are_stored, attrs_stand};
ghost use Rattle.calculus.specs.QueryParts.{targets_of, vars_of};
ghost use Rattle.calculus.specs.Replacement.{made_attr};
ghost use Rattle.quel_meaning.specs.Fit.{is_new, is_this_key, relation_fits};

use crate::standing::is_new;
use crate::target_attributes::made_attrs_stand;
use base_trait::{Base, BaseFault};
use calculus::{RelKey, Update, UpdateOp};
use change_check::{is_relation, same_key};
use std::alloc::Global;

/// The place of a variable that says that there is none.
const NONE: u8 = 255;

/// Whether a variable at a place ranges over what stands under a key.
fn is_over(vars: &[RelKey], place: u8, key: &RelKey) -> bool
    ensures { result ≡ is_this_key (slice_get vars.now place) key.now }
{
    match vars.get(place as usize) {
        None => false,
        Some(other) => same_key(other, key),
    }
}

/// Whether the variable whose rows are replaced or deleted ranges over the relation that is changed.
fn is_over_its_relation(u: &Update) -> bool
    ensures { result ≡ is_this_key (slice_get (vars_of u.now.query) u.now.old) u.now.rel }
{
    is_over(u.query.vars.items(), u.old, &u.rel)
}

/// Whether rows may be put into the relation.
fn may_be_put<B: Base>(alloc: Global, base: &mut B, u: &Update) -> Result<bool, BaseFault>
    ensures known { (db : Db) → B.schema base.old ≡ Some db → IfOk result (λ fit. fit ≡ (is_relation db u.now.rel && nat_eq u.now.old 255)) }
    ensures kept { B.database base.new ≡ B.database base.old }
    ensures stays { (s : Db) → B.schema base.old ≡ Some s → B.schema base.new ≡ Some s }
    ensures asked { (b : B) → B.asked b base.old → B.asked b base.new }
    ensures cause { HasCause (B.database base.old) (B.faults base.old) (B.faults base.new) result }
{
    if !is_relation(alloc, base, &u.rel)? {
        return Ok(false);
    }
    Ok(u.old == NONE)
}

/// Whether rows of the relation may be replaced or deleted.
fn may_be_changed<B: Base>(alloc: Global, base: &mut B, u: &Update) -> Result<bool, BaseFault>
    ensures known { (db : Db) → B.schema base.old ≡ Some db → IfOk result (λ fit. fit ≡ (is_relation db u.now.rel && is_this_key (slice_get (vars_of u.now.query) u.now.old) u.now.rel)) }
    ensures kept { B.database base.new ≡ B.database base.old }
    ensures stays { (s : Db) → B.schema base.old ≡ Some s → B.schema base.new ≡ Some s }
    ensures asked { (b : B) → B.asked b base.old → B.asked b base.new }
    ensures cause { HasCause (B.database base.old) (B.faults base.old) (B.faults base.new) result }
{
    if !is_relation(alloc, base, &u.rel)? {
        return Ok(false);
    }
    Ok(is_over_its_relation(u))
}

/// Whether the relation may be made.
fn may_be_made<B: Base>(alloc: Global, base: &mut B, u: &Update) -> Result<bool, BaseFault>
    ensures known { (db : Db) → B.schema base.old ≡ Some db → IfOk result (λ fit. fit ≡ (nat_eq u.now.old 255 && (is_new db u.now.rel.owner u.now.rel.name && (attrs_stand (map made_attr (targets_of u.now.query)) && are_stored (map made_attr (targets_of u.now.query)))))) }
    ensures kept { B.database base.new ≡ B.database base.old }
    ensures stays { (s : Db) → B.schema base.old ≡ Some s → B.schema base.new ≡ Some s }
    ensures asked { (b : B) → B.asked b base.old → B.asked b base.new }
    ensures cause { HasCause (B.database base.old) (B.faults base.old) (B.faults base.new) result }
{
    if u.old != NONE {
        return Ok(false);
    }
    if !is_new(alloc, base, &u.rel.owner, &u.rel.name)? {
        return Ok(false);
    }
    Ok(made_attrs_stand(alloc, &u.query)?)
}

/// Whether what is changed or made is fit: rows are put into a base relation; they are replaced and
/// deleted in one that a variable ranges over; or a relation is made, with attributes as one has.
#[tactic(auto, using(crate::proofs::RelationForms::put, crate::proofs::RelationForms::replaced, crate::proofs::RelationForms::deleted, crate::proofs::RelationForms::made))]
pub(crate) fn relation_fits<B: Base>(
    alloc: Global,
    base: &mut B,
    u: &Update,
) -> Result<bool, BaseFault>
    ensures known { (db : Db) → B.schema base.old ≡ Some db → IfOk result (λ fit. fit ≡ relation_fits db u.now) }
    ensures kept { B.database base.new ≡ B.database base.old }
    ensures stays { (s : Db) → B.schema base.old ≡ Some s → B.schema base.new ≡ Some s }
    ensures asked { (b : B) → B.asked b base.old → B.asked b base.new }
    ensures cause { HasCause (B.database base.old) (B.faults base.old) (B.faults base.new) result }
{
    match u.op {
        UpdateOp::Append => may_be_put(alloc, base, u),
        UpdateOp::Replace => may_be_changed(alloc, base, u),
        UpdateOp::Delete => may_be_changed(alloc, base, u),
        UpdateOp::Into => may_be_made(alloc, base, u),
    }
}
