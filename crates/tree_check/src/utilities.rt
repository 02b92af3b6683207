//! What the utilities are asked for.

ghost use Rattle.std.specs.Prelude.{◌≡◌, ◌&&◌, IfOk, Some};
ghost use Rattle.std.specs.List.{list_all};
ghost use Rattle.base_trait.specs.Causes.{HasCause};
ghost use Rattle.calculus.specs.Database.{Db};
ghost use Rattle.calculus.specs.IsDatabase.{are_stored, attrs_stand, keys_stand};
ghost use Rattle.calculus.specs.Keys.{same_key};
ghost use Rattle.calculus.specs.Lists.{differ_by, is_any};
ghost use Rattle.calculus.specs.Stored.{attrs_at};
ghost use Rattle.calculus.specs.Structures.{is_structure};
ghost use Rattle.quel_meaning.specs.Fit.{columns_fit, is_entry, is_new, utility_fits};
ghost use Rattle.quel_meaning.specs.FitQueries.{can_be_ranged_over};

use crate::columns::columns_fit;
use crate::standing::{are_entries, can_be_ranged_over, is_new};
use crate::views::{new_view_fits, permit_fits, row_qual_fits};
use base_trait::{Base, BaseFault};
use calculus::{Attr, CopyCol, Name, RelKey, Spec, Utility};
use change_check::{keys_differ, keys_stand, relation_attrs_stand, some_keys_stand};
use quel_names::info_at;
use std::alloc::Global;

/// Whether a relation may be made.
fn relation_is_new<B: Base>(
    alloc: Global,
    base: &mut B,
    rel: &RelKey,
    attrs: &[Attr],
) -> Result<bool, BaseFault>
    ensures known { (db : Db) → B.schema base.old ≡ Some db → IfOk result (λ fit. fit ≡ (is_new db rel.now.owner rel.now.name && (attrs_stand attrs.now && are_stored attrs.now))) }
    ensures kept { B.database base.new ≡ B.database base.old }
    ensures stays { (s : Db) → B.schema base.old ≡ Some s → B.schema base.new ≡ Some s }
    ensures asked { (b : B) → B.asked b base.old → B.asked b base.new }
    ensures cause { HasCause (B.database base.old) (B.faults base.old) (B.faults base.new) result }
{
    if !is_new(alloc, base, &rel.owner, &rel.name)? {
        return Ok(false);
    }
    Ok(relation_attrs_stand(alloc, attrs)?)
}

/// Whether these may be taken away.
fn may_go<B: Base>(alloc: Global, base: &mut B, rels: &[RelKey]) -> Result<bool, BaseFault>
    ensures known { (db : Db) → B.schema base.old ≡ Some db → IfOk result (λ fit. fit ≡ (list_all (is_entry db) rels.now && differ_by same_key rels.now)) }
    ensures kept { B.database base.new ≡ B.database base.old }
    ensures stays { (s : Db) → B.schema base.old ≡ Some s → B.schema base.new ≡ Some s }
    ensures asked { (b : B) → B.asked b base.old → B.asked b base.new }
    ensures cause { HasCause (B.database base.old) (B.faults base.old) (B.faults base.new) result }
{
    if !are_entries(alloc, base, rels)? {
        return Ok(false);
    }
    Ok(keys_differ(rels))
}

/// Whether it is a structure of a base relation.
fn is_structure(to: Spec) -> bool
    ensures { result ≡ is_structure to }
{
    match to {
        Spec::Heap => true,
        Spec::Hash => true,
        Spec::Isam => true,
        Spec::View => false,
        Spec::Index => false,
    }
}

/// Whether a relation may be stored so.
fn may_be_stored<B: Base>(
    alloc: Global,
    base: &mut B,
    rel: &RelKey,
    to: Spec,
    keys: &[u8],
) -> Result<bool, BaseFault>
    ensures known { (db : Db) → B.schema base.old ≡ Some db → IfOk result (λ fit. fit ≡ (can_be_ranged_over db rel.now && (is_structure to && keys_stand (attrs_at db rel.now) keys.now))) }
    ensures kept { B.database base.new ≡ B.database base.old }
    ensures stays { (s : Db) → B.schema base.old ≡ Some s → B.schema base.new ≡ Some s }
    ensures asked { (b : B) → B.asked b base.old → B.asked b base.new }
    ensures cause { HasCause (B.database base.old) (B.faults base.old) (B.faults base.new) result }
{
    match info_at(alloc, base, rel)? {
        Some(info) => Ok(is_structure(to) && keys_stand(info.attrs.items(), keys)),
        None => Ok(false),
    }
}

/// Whether what stands under a key has attributes by which an index may be made.
fn may_be_indexed<B: Base>(
    alloc: Global,
    base: &mut B,
    rel: &RelKey,
    keys: &[u8],
) -> Result<bool, BaseFault>
    ensures known { (db : Db) → B.schema base.old ≡ Some db → IfOk result (λ fit. fit ≡ (can_be_ranged_over db rel.now && (is_any keys.now && keys_stand (attrs_at db rel.now) keys.now))) }
    ensures kept { B.database base.new ≡ B.database base.old }
    ensures stays { (s : Db) → B.schema base.old ≡ Some s → B.schema base.new ≡ Some s }
    ensures asked { (b : B) → B.asked b base.old → B.asked b base.new }
    ensures cause { HasCause (B.database base.old) (B.faults base.old) (B.faults base.new) result }
{
    match info_at(alloc, base, rel)? {
        Some(info) => Ok(some_keys_stand(info.attrs.items(), keys)),
        None => Ok(false),
    }
}

/// Whether a user may make an index of this name.
fn index_is_new<B: Base>(
    alloc: Global,
    base: &mut B,
    rel: &RelKey,
    user: &Name,
    name: &Name,
    keys: &[u8],
) -> Result<bool, BaseFault>
    ensures known { (db : Db) → B.schema base.old ≡ Some db → IfOk result (λ fit. fit ≡ (can_be_ranged_over db rel.now && (is_new db user.now name.now && (is_any keys.now && keys_stand (attrs_at db rel.now) keys.now)))) }
    ensures kept { B.database base.new ≡ B.database base.old }
    ensures stays { (s : Db) → B.schema base.old ≡ Some s → B.schema base.new ≡ Some s }
    ensures asked { (b : B) → B.asked b base.old → B.asked b base.new }
    ensures cause { HasCause (B.database base.old) (B.faults base.old) (B.faults base.new) result }
{
    if !may_be_indexed(alloc, base, rel, keys)? {
        return Ok(false);
    }
    is_new(alloc, base, user, name)
}

/// Whether rows of what stands under a key may be copied by these columns.
fn may_be_copied<B: Base>(
    alloc: Global,
    base: &mut B,
    rel: &RelKey,
    columns: &[CopyCol],
) -> Result<bool, BaseFault>
    ensures known { (db : Db) → B.schema base.old ≡ Some db → IfOk result (λ fit. fit ≡ (can_be_ranged_over db rel.now && columns_fit db rel.now columns.now)) }
    ensures kept { B.database base.new ≡ B.database base.old }
    ensures stays { (s : Db) → B.schema base.old ≡ Some s → B.schema base.new ≡ Some s }
    ensures asked { (b : B) → B.asked b base.old → B.asked b base.new }
    ensures cause { HasCause (B.database base.old) (B.faults base.old) (B.faults base.new) result }
{
    match info_at(alloc, base, rel)? {
        Some(info) => Ok(columns_fit(info.attrs.items(), columns)),
        None => Ok(false),
    }
}

/// Whether what the utilities are asked for is fit: what it names is there, what it makes is new, and its
/// places differ and are in range; the name of an index is one of the user's.
#[tactic(auto, using(crate::proofs::UtilityForms::of_create, crate::proofs::UtilityForms::of_destroy, crate::proofs::UtilityForms::of_modify, crate::proofs::UtilityForms::of_index, crate::proofs::UtilityForms::of_copy, crate::proofs::UtilityForms::of_view, crate::proofs::UtilityForms::of_permit, crate::proofs::UtilityForms::of_rule, crate::proofs::UtilityForms::of_permits, crate::proofs::UtilityForms::of_rules))]
pub(crate) fn utility_fits<B: Base>(
    alloc: Global,
    base: &mut B,
    user: &Name,
    work: &Utility,
) -> Result<bool, BaseFault>
    ensures known { (db : Db) → B.schema base.old ≡ Some db → IfOk result (λ fit. fit ≡ utility_fits db user.now work.now) }
    ensures kept { B.database base.new ≡ B.database base.old }
    ensures stays { (s : Db) → B.schema base.old ≡ Some s → B.schema base.new ≡ Some s }
    ensures asked { (b : B) → B.asked b base.old → B.asked b base.new }
    ensures cause { HasCause (B.database base.old) (B.faults base.old) (B.faults base.new) result }
{
    match work {
        Utility::Create { rel, attrs } => relation_is_new(alloc, base, rel, attrs.items()),
        Utility::Destroy { rels } => may_go(alloc, base, rels.items()),
        Utility::Modify { rel, to, keys } => may_be_stored(alloc, base, rel, *to, keys.items()),
        Utility::Index {
            base: rel,
            name,
            keys,
        } => index_is_new(alloc, base, rel, user, name, keys.items()),
        Utility::Copy { rel, columns, .. } => may_be_copied(alloc, base, rel, columns.items()),
        Utility::View { rel, query } => new_view_fits(alloc, base, rel, query),
        Utility::Permit { rel, permit } => permit_fits(alloc, base, rel, permit),
        Utility::Rule { rel, rule } => row_qual_fits(alloc, base, rel, &rule.qual),
        Utility::DropPermits { rel, .. } => can_be_ranged_over(alloc, base, rel),
        Utility::DropRules { rel, .. } => can_be_ranged_over(alloc, base, rel),
    }
}
