//! Relations, views and indexes that go.

ghost use Rattle.std.specs.Prelude.{◌≡◌, IfOk, Some};
ghost use Rattle.std.specs.List.{list_all, list_any};
ghost use Rattle.base_trait.specs.Causes.{HasCause};
ghost use Rattle.calculus.specs.Database.{Db, is_there};
ghost use Rattle.calculus.specs.Keys.{same_key};
ghost use Rattle.calculus.specs.Lists.{differ_by};
ghost use Rattle.change_laws.specs.Fit.{destroying_is_fit, is_named_outside};

use crate::keys::is_there;
use base_trait::{Base, BaseFault};
use calculus::RelKey;
use std::alloc::Global;

/// Whether a relation, a view or an index stands under each key.
fn are_there<B: Base>(alloc: Global, base: &mut B, rels: &[RelKey]) -> Result<bool, BaseFault>
    ensures known { (db : Db) → B.schema base.old ≡ Some db → IfOk result (λ there. there ≡ list_all (is_there db) rels.now) }
    ensures kept { B.database base.new ≡ B.database base.old }
    ensures stays { (s : Db) → B.schema base.old ≡ Some s → B.schema base.new ≡ Some s }
    ensures asked { (b : B) → B.asked b base.old → B.asked b base.new }
    ensures cause { HasCause (B.database base.old) (B.faults base.old) (B.faults base.new) result }
{
    for key in rels {
        let there = is_there(alloc, base, key)?;
        if !there {
            return Ok(false);
        }
    }
    Ok(true)
}

/// Whether the two keys have one owner and one name.
pub fn same_key(a: &RelKey, b: &RelKey) -> bool
    ensures { result ≡ same_key a.now b.now }
{
    a.owner.bytes() == b.owner.bytes() && a.name.bytes() == b.name.bytes()
}

fn is_among(key: &RelKey, keys: &[RelKey]) -> bool
    ensures { result ≡ list_any (same_key key.now) keys.now }
{
    for other in keys {
        if same_key(key, other) {
            return true;
        }
    }
    false
}

/// Whether no two of these keys are the same.
pub fn keys_differ(keys: &[RelKey]) -> bool
    ensures { result ≡ differ_by same_key keys.now }
{
    let mut rest = keys;
    'keys: while let Some((key, others)) = rest.split_first() {
        if is_among(key, others) {
            return false;
        }
        rest = others;
    }
    true
}

/// Whether a view that is none of these names what stands under a key.
#[tactic(auto, unfolding(change_laws::specs::Fit::is_named_outside))]
fn is_named_outside<B: Base>(
    alloc: Global,
    base: &mut B,
    all: &[RelKey],
    key: &RelKey,
) -> Result<bool, BaseFault>
    ensures known { (db : Db) → B.schema base.old ≡ Some db → IfOk result (λ named. named ≡ is_named_outside db all.now key.now) }
    ensures kept { B.database base.new ≡ B.database base.old }
    ensures stays { (s : Db) → B.schema base.old ≡ Some s → B.schema base.new ≡ Some s }
    ensures asked { (b : B) → B.asked b base.old → B.asked b base.new }
    ensures cause { HasCause (B.database base.old) (B.faults base.old) (B.faults base.new) result }
{
    base.named_by_view(alloc, key, all)
}

/// Whether a view that stays names what stands under one of these keys, where those under `all` go.
fn some_named<B: Base>(
    alloc: Global,
    base: &mut B,
    all: &[RelKey],
    rels: &[RelKey],
) -> Result<bool, BaseFault>
    ensures known { (db : Db) → B.schema base.old ≡ Some db → IfOk result (λ named. named ≡ list_any (is_named_outside db all.now) rels.now) }
    ensures kept { B.database base.new ≡ B.database base.old }
    ensures stays { (s : Db) → B.schema base.old ≡ Some s → B.schema base.new ≡ Some s }
    ensures asked { (b : B) → B.asked b base.old → B.asked b base.new }
    ensures cause { HasCause (B.database base.old) (B.faults base.old) (B.faults base.new) result }
{
    for key in rels {
        let named = is_named_outside(alloc, base, all, key)?;
        if named {
            return Ok(true);
        }
    }
    Ok(false)
}

/// Whether relations, views and indexes may go: each is there, none is listed twice, and no view that
/// stays names one of them.
#[tactic(auto, unfolding(change_laws::specs::Fit::destroying_is_fit))]
pub(crate) fn destroying_is_fit<B: Base>(
    alloc: Global,
    base: &mut B,
    rels: &[RelKey],
) -> Result<bool, BaseFault>
    ensures known { (db : Db) → B.schema base.old ≡ Some db → IfOk result (λ fit. fit ≡ destroying_is_fit db rels.now) }
    ensures kept { B.database base.new ≡ B.database base.old }
    ensures stays { (s : Db) → B.schema base.old ≡ Some s → B.schema base.new ≡ Some s }
    ensures asked { (b : B) → B.asked b base.old → B.asked b base.new }
    ensures cause { HasCause (B.database base.old) (B.faults base.old) (B.faults base.new) result }
{
    if !are_there(alloc, base, rels)? {
        return Ok(false);
    }
    if !keys_differ(rels) {
        return Ok(false);
    }
    Ok(!some_named(alloc, base, rels, rels)?)
}
