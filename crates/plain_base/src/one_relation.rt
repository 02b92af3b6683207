//! The one relation under a key, changed where it lies.

ghost use Rattle.std.specs.Prelude.{◌≡◌, ◌<◌, length, map, slice_set, slice_index_or, IfSome, OnOk, OnErr, MatchOption};
ghost use Rattle.std.specs.List.Sorted.{IsStrictlySortedBy};
ghost use Rattle.calculus.specs.Change.{change_at, restructured};
ghost use Rattle.calculus.specs.Database.{Relation};
ghost use Rattle.calculus.specs.Keys.{key_cmp};
ghost use Rattle.calculus.specs.Replacement.{with_rows, without_rows};

use crate::look_up::is_same;
use crate::rows;
use crate::under_keys::Stored;
use calculus::{List, OutOfMemory, RelInfo, RelKey, Row, Spec};
use std::alloc::Global;

/// The place of the relation under a key.
fn place_under(relations: &[Stored], key: &RelKey) -> Option<usize>
    requires { IsStrictlySortedBy key_cmp (map (λ r. r.info.key) relations.now) }
    ensures within { IfSome result (λ i. i < length relations.now) }
    ensures changed { MatchOption result ((f : Relation → Relation) → change_at key.now f relations.now ≡ relations.now) (λ i. (f : Relation → Relation) (d : Relation) → change_at key.now f relations.now ≡ slice_set relations.now i (f (slice_index_or relations.now i d))) }
{
    for (i, relation) in relations.iter().enumerate() {
        if is_same(&relation.info.key, key) {
            return Some(i);
        }
    }
    None
}

/// What is known of a relation that has another structure.
fn set_structure(info: &mut RelInfo, to: Spec, keys: List<u8>)
    ensures { info.new ≡ record info.old { spec = to; keys = keys } }
{
    info.spec = to;
    info.keys = keys;
}

impl Stored {
    /// Rows go and come. After an error all is as before.
    fn change_rows(&mut self, alloc: Global, remove: &[Row], add: &[Row]) -> Result<(), OutOfMemory>
        ensures ok { OnOk result (self.new ≡ record self.old { rows = with_rows add.now (without_rows remove.now self.old.rows) }) }
        ensures err { OnErr result (self.new ≡ self.old) }
    {
        rows::change(alloc, &mut self.rows, remove, add)
    }

    /// The relation has another structure.
    fn restructure(&mut self, to: Spec, keys: List<u8>)
        ensures { self.new ≡ restructured to keys self.old }
    {
        set_structure(&mut self.info, to, keys);
    }
}

/// Rows of the relation under a key go and come. After an error all is as before.
pub(crate) fn change_rows(
    alloc: Global,
    relations: &mut Vec<Stored>,
    key: &RelKey,
    remove: &[Row],
    add: &[Row],
) -> Result<(), OutOfMemory>
    requires { IsStrictlySortedBy key_cmp (map (λ r. r.info.key) relations.old.items) }
    ensures ok { OnOk result (relations.new.items ≡ change_at key.now (λ r. record r { rows = with_rows add.now (without_rows remove.now r.rows) }) relations.old.items) }
    ensures err { OnErr result (relations.new.items ≡ relations.old.items) }
{
    match place_under(relations, key) {
        Some(place) => relations[place].change_rows(alloc, remove, add),
        None => Ok(()),
    }
}

/// The relation under a key has another structure.
pub(crate) fn restructure(relations: &mut Vec<Stored>, key: &RelKey, to: Spec, keys: List<u8>)
    requires { IsStrictlySortedBy key_cmp (map (λ r. r.info.key) relations.old.items) }
    ensures { relations.new.items ≡ change_at key.now (restructured to keys) relations.old.items }
{
    match place_under(relations, key) {
        Some(place) => relations[place].restructure(to, keys),
        None => {}
    }
}
