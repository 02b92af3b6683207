//! What was found of views while a query is looked through, so that what stands under a key is looked
//! through once for so many levels, by however many ways it is reached.

ghost use Rattle.std.specs.Prelude.{◌≡◌, [], true, is_some, IfOk, IfSome, OnOk};
ghost use Rattle.calculus.specs.Database.{Db};
ghost use Rattle.calculus.specs.Sizes.{level_within, measure_within};
ghost use Rattle.view_sizes.specs.Measured.{held, stopped_measure};
ghost use Rattle.view_sizes.specs.Remembered.{AreMeasured, HaveLevels};

use crate::sizes::Measure;
use calculus::{OutOfMemory, RelKey, TryCopy};
use indexmap::{IndexMap, IndexSet};
use memory::both;
use std::alloc::Global;

/// A key, and through how many levels of views it is looked at.
pub(crate) type Slot = (RelKey, u8);

/// What was found to stand under keys.
pub(crate) type Measures = IndexMap<Slot, Measure>;

/// Keys of which it was found that what stands under them has a level, at most the number beside them.
pub(crate) type Levels = IndexSet<Slot>;

/// The key with so many levels.
fn slot_of(alloc: Global, key: &RelKey, levels: u8) -> Result<Slot, OutOfMemory>
    ensures { IfOk result (λ slot. slot ≡ (key.now, levels)) }
{
    match key.copy(alloc) {
        Ok(key) => Ok((key, levels)),
        Err(error) => Err(error),
    }
}

/// Another measure that says the same.
fn copied(alloc: Global, measure: &Measure) -> Result<Measure, OutOfMemory>
    ensures { IfOk result (λ copy. held copy ≡ held measure.now) }
{
    match measure.attrs.to_vec(alloc) {
        Ok(attrs) => Ok(Measure {
            variables: measure.variables,
            attrs,
            qual: measure.qual,
        }),
        Err(_) => Err(OutOfMemory),
    }
}

/// What is remembered of this key and so many levels.
fn remembered<'a>(found: &'a Measures, slot: &Slot) -> Option<&'a Measure>
    ensures { (db : Db) → AreMeasured db found.now.entries → IfSome result (λ m. held m.now ≡ stopped_measure (measure_within slot.now.1 db slot.now.0)) }
{
    found.get(slot)
}

/// What was found to stand under a key through so many levels; `None` where nothing is remembered.
pub(crate) fn measure_found(
    alloc: Global,
    found: &Measures,
    key: &RelKey,
    levels: u8,
) -> Result<Option<Measure>, OutOfMemory>
    ensures { (db : Db) → AreMeasured db found.now.entries → IfOk result (λ there. IfSome there (λ m. held m ≡ stopped_measure (measure_within levels db key.now))) }
{
    let slot = slot_of(alloc, key, levels)?;
    match remembered(found, &slot) {
        None => Ok(None),
        Some(measure) => match copied(alloc, measure) {
            Ok(copy) => Ok(Some(copy)),
            Err(error) => Err(error),
        },
    }
}

/// Remembers what was found to stand under a key through so many levels.
pub(crate) fn remember_measure(
    alloc: Global,
    found: &mut Measures,
    key: &RelKey,
    levels: u8,
    measure: &Measure,
) -> Result<(), OutOfMemory>
    ensures { (db : Db) → AreMeasured db found.old.entries → held measure.now ≡ stopped_measure (measure_within levels db key.now) → OnOk result (AreMeasured db found.new.entries) }
{
    let (slot, copy) = both(slot_of(alloc, key, levels), copied(alloc, measure))?;
    match found.insert(slot, copy) {
        Ok(_) => Ok(()),
        Err(_) => Err(OutOfMemory),
    }
}

/// Whether it was found that what stands under a key has a level, at most this one.
pub(crate) fn level_is_found(
    alloc: Global,
    found: &Levels,
    key: &RelKey,
    levels: u8,
) -> Result<bool, OutOfMemory>
    ensures { (db : Db) → HaveLevels db found.now.keys → IfOk result (λ there. there ≡ true → is_some (level_within levels db key.now) ≡ true) }
{
    let slot = slot_of(alloc, key, levels)?;
    Ok(found.contains(&slot))
}

/// Remembers that what stands under a key has a level, at most this one, where it has; and says
/// whether it has.
pub(crate) fn remember_level(
    alloc: Global,
    found: &mut Levels,
    key: &RelKey,
    levels: u8,
    has: bool,
) -> Result<bool, OutOfMemory>
    ensures has { IfOk result (λ said. said ≡ has) }
    ensures found { (db : Db) → HaveLevels db found.old.keys → has ≡ is_some (level_within levels db key.now) → OnOk result (HaveLevels db found.new.keys) }
{
    if has {
        let slot = slot_of(alloc, key, levels)?;
        found.insert(slot)?;
    }
    Ok(has)
}
