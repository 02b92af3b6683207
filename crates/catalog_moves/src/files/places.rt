//! Places in the order of their keys.

ghost use Rattle.std.specs.Prelude.{◌≡◌, ◌==◌, not, filter, option_map, OnOk, OnErr};
ghost use Rattle.std.specs.List.Sorted.{IsStrictlySortedBy};
ghost use Rattle.calculus.specs.Keys.{same_key};
ghost use Rattle.calculus.specs.Lists.{insert_by};
ghost use Rattle.catalog_moves.specs.Files.{by_place, place_at};

use super::FilePlace;
use crate::keys::{Keyed, is_same, place_of};
use calculus::{OutOfMemory, RelKey};

impl Keyed for FilePlace {
    ghost key = { λ p. p.key };

    fn key(&self) -> &RelKey {
        &self.key
    }
}

/// The place under the key, where keys ascend. A binary search.
pub(super) fn find_place<'a>(places: &'a [FilePlace], key: &RelKey) -> Option<&'a FilePlace>
    requires { IsStrictlySortedBy by_place places.now }
    ensures { option_map (λ p. p.now) result ≡ place_at places.now key.now }
{
    match place_of(places, key) {
        Ok(at) => Some(&places[at]),
        Err(_) => None,
    }
}

/// Puts a place among others; one with its key gives way. After want of memory nothing is changed.
pub(super) fn put_place(places: &mut Vec<FilePlace>, place: FilePlace) -> Result<(), OutOfMemory>
    requires { IsStrictlySortedBy by_place places.old.items }
    ensures put { OnOk result (places.new.items ≡ insert_by by_place place places.old.items) }
    ensures same { OnErr result (places.new.items ≡ places.old.items) }
{
    match place_of(places, &place.key) {
        Ok(at) => {
            places[at] = place;
            Ok(())
        }
        Err(at) => {
            places.insert(at, place)?;
            Ok(())
        }
    }
}

/// What lies under a key leaves.
pub(super) fn leave_key(places: &mut Vec<FilePlace>, key: &RelKey)
    ensures { places.new.items ≡ filter (λ p. not (same_key p.key key.now)) places.old.items }
{
    places.retain(|place| !is_same(&place.key, key));
}

/// The indexes on the relation with this file leave.
pub(super) fn leave_base(places: &mut Vec<FilePlace>, file: u32)
    ensures { places.new.items ≡ filter (λ p. not (p.base == file)) places.old.items }
{
    places.retain(|place| place.base != file);
}
