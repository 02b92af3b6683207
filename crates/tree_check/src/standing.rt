//! What stands under keys, and what keeps its rows.

ghost use Rattle.std.specs.Prelude.{◌≡◌, IfOk, Some};
ghost use Rattle.std.specs.List.{list_all};
ghost use Rattle.base_trait.specs.Causes.{HasCause};
ghost use Rattle.calculus.specs.Database.{Db};
ghost use Rattle.quel_meaning.specs.Fit.{is_entry, is_new};
ghost use Rattle.quel_meaning.specs.FitQueries.{can_be_ranged_over, is_kept};
ghost use Rattle.tree_check.specs.Standing.{is_kept_info};

use base_trait::{Base, BaseFault};
use calculus::{Name, RelInfo, RelKey, Spec};
use quel_names::info_at;
use quel_refusals::{is_full, is_taken};
use std::alloc::Global;

/// Whether this is known of what keeps its rows.
fn is_kept_info(info: &Option<RelInfo>) -> bool
    ensures { result ≡ is_kept_info info.now }
{
    match info {
        None => false,
        Some(info) => match info.spec {
            Spec::Heap => true,
            Spec::Hash => true,
            Spec::Isam => true,
            Spec::View => false,
            Spec::Index => false,
        },
    }
}

/// Whether a base relation or a catalogue stands under a key.
pub(crate) fn is_kept<B: Base>(alloc: Global, base: &mut B, key: &RelKey) -> Result<bool, BaseFault>
    ensures known { (db : Db) → B.schema base.old ≡ Some db → IfOk result (λ kept. kept ≡ is_kept db key.now) }
    ensures kept { B.database base.new ≡ B.database base.old }
    ensures stays { (s : Db) → B.schema base.old ≡ Some s → B.schema base.new ≡ Some s }
    ensures asked { (b : B) → B.asked b base.old → B.asked b base.new }
    ensures cause { HasCause (B.database base.old) (B.faults base.old) (B.faults base.new) result }
{
    let info = base.info(alloc, key)?;
    Ok(is_kept_info(&info))
}

/// Whether a base relation or a catalogue stands under each key.
pub(crate) fn are_kept<B: Base>(
    alloc: Global,
    base: &mut B,
    keys: &[RelKey],
) -> Result<bool, BaseFault>
    ensures known { (db : Db) → B.schema base.old ≡ Some db → IfOk result (λ kept. kept ≡ list_all (is_kept db) keys.now) }
    ensures kept { B.database base.new ≡ B.database base.old }
    ensures stays { (s : Db) → B.schema base.old ≡ Some s → B.schema base.new ≡ Some s }
    ensures asked { (b : B) → B.asked b base.old → B.asked b base.new }
    ensures cause { HasCause (B.database base.old) (B.faults base.old) (B.faults base.new) result }
{
    for key in keys {
        let kept = is_kept(alloc, base, key)?;
        if !kept {
            return Ok(false);
        }
    }
    Ok(true)
}

/// Whether a relation, a view or a catalogue stands under a key.
pub(crate) fn can_be_ranged_over<B: Base>(
    alloc: Global,
    base: &mut B,
    key: &RelKey,
) -> Result<bool, BaseFault>
    ensures known { (db : Db) → B.schema base.old ≡ Some db → IfOk result (λ there. there ≡ can_be_ranged_over db key.now) }
    ensures kept { B.database base.new ≡ B.database base.old }
    ensures stays { (s : Db) → B.schema base.old ≡ Some s → B.schema base.new ≡ Some s }
    ensures asked { (b : B) → B.asked b base.old → B.asked b base.new }
    ensures cause { HasCause (B.database base.old) (B.faults base.old) (B.faults base.new) result }
{
    let info = info_at(alloc, base, key)?;
    Ok(info.is_some())
}

/// Whether a relation, a view, an index or a catalogue stands under a key.
fn is_entry<B: Base>(alloc: Global, base: &mut B, key: &RelKey) -> Result<bool, BaseFault>
    ensures known { (db : Db) → B.schema base.old ≡ Some db → IfOk result (λ there. there ≡ is_entry db key.now) }
    ensures kept { B.database base.new ≡ B.database base.old }
    ensures stays { (s : Db) → B.schema base.old ≡ Some s → B.schema base.new ≡ Some s }
    ensures asked { (b : B) → B.asked b base.old → B.asked b base.new }
    ensures cause { HasCause (B.database base.old) (B.faults base.old) (B.faults base.new) result }
{
    let info = base.info(alloc, key)?;
    Ok(info.is_some())
}

/// Whether a relation, a view, an index or a catalogue stands under each key.
pub(crate) fn are_entries<B: Base>(
    alloc: Global,
    base: &mut B,
    keys: &[RelKey],
) -> Result<bool, BaseFault>
    ensures known { (db : Db) → B.schema base.old ≡ Some db → IfOk result (λ there. there ≡ list_all (is_entry db) keys.now) }
    ensures kept { B.database base.new ≡ B.database base.old }
    ensures stays { (s : Db) → B.schema base.old ≡ Some s → B.schema base.new ≡ Some s }
    ensures asked { (b : B) → B.asked b base.old → B.asked b base.new }
    ensures cause { HasCause (B.database base.old) (B.faults base.old) (B.faults base.new) result }
{
    for key in keys {
        let there = is_entry(alloc, base, key)?;
        if !there {
            return Ok(false);
        }
    }
    Ok(true)
}

/// Whether there is room for what is made, and its name is not in use.
pub(crate) fn is_new<B: Base>(
    alloc: Global,
    base: &mut B,
    owner: &Name,
    name: &Name,
) -> Result<bool, BaseFault>
    ensures known { (db : Db) → B.schema base.old ≡ Some db → IfOk result (λ free. free ≡ is_new db owner.now name.now) }
    ensures kept { B.database base.new ≡ B.database base.old }
    ensures stays { (s : Db) → B.schema base.old ≡ Some s → B.schema base.new ≡ Some s }
    ensures asked { (b : B) → B.asked b base.old → B.asked b base.new }
    ensures cause { HasCause (B.database base.old) (B.faults base.old) (B.faults base.new) result }
{
    if is_taken(alloc, base, owner, name)? {
        return Ok(false);
    }
    Ok(!is_full(base)?)
}
