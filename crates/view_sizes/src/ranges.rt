//! What variables may range over, and the level that it has.

ghost use Rattle.std.specs.Prelude.{◌≡◌, is_some, IfOk, OnOk, Some};
ghost use Rattle.std.specs.List.{list_all};
ghost use Rattle.base_trait.specs.Causes.{HasCause};
ghost use Rattle.calculus.specs.Database.{Db};
ghost use Rattle.calculus.specs.Sizes.{level_within, query_level};
ghost use Rattle.calculus.specs.Stored.{range_at};
ghost use Rattle.quel_meaning.specs.Passing.{is_too_high};
ghost use Rattle.view_sizes.specs.Remembered.{HaveLevels};
ghost use Rattle.view_sizes.specs.Standing.{is_ranged};

use crate::remembered::{Levels, level_is_found, remember_level};
use base_trait::{Base, BaseFault};
use calculus::{Query, RelInfo, RelKey, Spec};
use indexmap::IndexSet;
use std::alloc::Global;

/// The level that what a view names has at most.
const LEVELS_BELOW: u8 = 15;

/// Whether this is known of what a variable may range over: anything but an index.
fn is_ranged(info: &Option<RelInfo>) -> bool
    ensures { result ≡ is_ranged info.now }
{
    match info {
        None => false,
        Some(info) => match info.spec {
            Spec::Heap => true,
            Spec::Hash => true,
            Spec::Isam => true,
            Spec::View => true,
            Spec::Index => false,
        },
    }
}

/// Whether a variable may range over what stands under a key.
pub fn is_range<B: Base>(alloc: Global, base: &mut B, key: &RelKey) -> Result<bool, BaseFault>
    ensures known { (db : Db) → B.schema base.old ≡ Some db → IfOk result (λ there. there ≡ is_some (range_at db key.now)) }
    ensures kept { B.database base.new ≡ B.database base.old }
    ensures stays { (s : Db) → B.schema base.old ≡ Some s → B.schema base.new ≡ Some s }
    ensures asked { (b : B) → B.asked b base.old → B.asked b base.new }
    ensures cause { HasCause (B.database base.old) (B.faults base.old) (B.faults base.new) result }
{
    let info = base.info(alloc, key)?;
    Ok(is_ranged(&info))
}

/// Whether a variable may range over what stands under each key.
pub fn are_ranges<B: Base>(alloc: Global, base: &mut B, vars: &[RelKey]) -> Result<bool, BaseFault>
    ensures known { (db : Db) → B.schema base.old ≡ Some db → IfOk result (λ there. there ≡ list_all (λ key. is_some (range_at db key)) vars.now) }
    ensures kept { B.database base.new ≡ B.database base.old }
    ensures stays { (s : Db) → B.schema base.old ≡ Some s → B.schema base.new ≡ Some s }
    ensures asked { (b : B) → B.asked b base.old → B.asked b base.new }
    ensures cause { HasCause (B.database base.old) (B.faults base.old) (B.faults base.new) result }
{
    for key in vars {
        let there = is_range(alloc, base, key)?;
        if !there {
            return Ok(false);
        }
    }
    Ok(true)
}

/// Whether what stands under a key has a level, and this is at most so many, where it was found of
/// some that they have.
#[cycle(levels)]
fn has_level<B: Base>(
    alloc: Global,
    base: &mut B,
    found: &mut Levels,
    key: &RelKey,
    levels: u8,
) -> Result<bool, BaseFault>
    ensures known { (db : Db) → B.schema base.old ≡ Some db → HaveLevels db found.old.keys → IfOk result (λ has. has ≡ is_some (level_within levels db key.now)) }
    ensures found { (db : Db) → B.schema base.old ≡ Some db → HaveLevels db found.old.keys → OnOk result (HaveLevels db found.new.keys) }
    ensures kept { B.database base.new ≡ B.database base.old }
    ensures stays { (s : Db) → B.schema base.old ≡ Some s → B.schema base.new ≡ Some s }
    ensures asked { (b : B) → B.asked b base.old → B.asked b base.new }
    ensures cause { HasCause (B.database base.old) (B.faults base.old) (B.faults base.new) result }
{
    if level_is_found(alloc, found, key, levels)? {
        return Ok(true);
    }
    let has = has_level_anew(alloc, base, found, key, levels)?;
    Ok(remember_level(alloc, found, key, levels, has)?)
}

/// Whether what stands under a key has a level, and this is at most so many: looked for in the base.
#[cycle(levels)]
fn has_level_anew<B: Base>(
    alloc: Global,
    base: &mut B,
    found: &mut Levels,
    key: &RelKey,
    levels: u8,
) -> Result<bool, BaseFault>
    ensures known { (db : Db) → B.schema base.old ≡ Some db → HaveLevels db found.old.keys → IfOk result (λ has. has ≡ is_some (level_within levels db key.now)) }
    ensures found { (db : Db) → B.schema base.old ≡ Some db → HaveLevels db found.old.keys → OnOk result (HaveLevels db found.new.keys) }
    ensures kept { B.database base.new ≡ B.database base.old }
    ensures stays { (s : Db) → B.schema base.old ≡ Some s → B.schema base.new ≡ Some s }
    ensures asked { (b : B) → B.asked b base.old → B.asked b base.new }
    ensures cause { HasCause (B.database base.old) (B.faults base.old) (B.faults base.new) result }
{
    match base.view(alloc, key)? {
        Some(query) => {
            if levels == 0 {
                drop(query);
                return Ok(false);
            }
            let all = have_levels_found(alloc, base, found, query.vars.items(), levels - 1);
            drop(query);
            all
        }
        None => is_range(alloc, base, key),
    }
}

/// Whether what stands under each key has a level, and this is at most so many, where it was found of
/// some that they have.
#[cycle(levels)]
fn have_levels_found<B: Base>(
    alloc: Global,
    base: &mut B,
    found: &mut Levels,
    vars: &[RelKey],
    levels: u8,
) -> Result<bool, BaseFault>
    ensures known { (db : Db) → B.schema base.old ≡ Some db → HaveLevels db found.old.keys → IfOk result (λ have. have ≡ list_all (λ key. is_some (level_within levels db key)) vars.now) }
    ensures found { (db : Db) → B.schema base.old ≡ Some db → HaveLevels db found.old.keys → OnOk result (HaveLevels db found.new.keys) }
    ensures kept { B.database base.new ≡ B.database base.old }
    ensures stays { (s : Db) → B.schema base.old ≡ Some s → B.schema base.new ≡ Some s }
    ensures asked { (b : B) → B.asked b base.old → B.asked b base.new }
    ensures cause { HasCause (B.database base.old) (B.faults base.old) (B.faults base.new) result }
{
    for key in vars {
        let has = has_level(alloc, base, found, key, levels)?;
        if !has {
            return Ok(false);
        }
    }
    Ok(true)
}

/// Whether what stands under each key has a level, and this is at most so many. What stands under a
/// key is looked through once for so many levels.
pub fn have_levels<B: Base>(
    alloc: Global,
    base: &mut B,
    vars: &[RelKey],
    levels: u8,
) -> Result<bool, BaseFault>
    ensures known { (db : Db) → B.schema base.old ≡ Some db → IfOk result (λ have. have ≡ list_all (λ key. is_some (level_within levels db key)) vars.now) }
    ensures kept { B.database base.new ≡ B.database base.old }
    ensures stays { (s : Db) → B.schema base.old ≡ Some s → B.schema base.new ≡ Some s }
    ensures asked { (b : B) → B.asked b base.old → B.asked b base.new }
    ensures cause { HasCause (B.database base.old) (B.faults base.old) (B.faults base.new) result }
{
    let mut found: Levels = IndexSet::new(alloc);
    have_levels_found(alloc, base, &mut found, vars, levels)
}

/// Whether a view of this query would have no level, or one that is greater than there may be.
pub fn has_high_level<B: Base>(
    alloc: Global,
    base: &mut B,
    query: &Query,
) -> Result<bool, BaseFault>
    ensures known { (db : Db) → B.schema base.old ≡ Some db → IfOk result (λ high. high ≡ is_too_high (query_level db query.now)) }
    ensures kept { B.database base.new ≡ B.database base.old }
    ensures stays { (s : Db) → B.schema base.old ≡ Some s → B.schema base.new ≡ Some s }
    ensures asked { (b : B) → B.asked b base.old → B.asked b base.new }
    ensures cause { HasCause (B.database base.old) (B.faults base.old) (B.faults base.new) result }
{
    let have = have_levels(alloc, base, query.vars.items(), LEVELS_BELOW)?;
    Ok(!have)
}
