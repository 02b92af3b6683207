//! What a table of files says.

ghost use Rattle.std.specs.Prelude.{◌≡◌, ◌==◌, ◌≤◌, ◌+◌, ◌^◌, false, true, None, is_some, option_map};
ghost use Rattle.std.specs.Option.{ForSome};
ghost use Rattle.calculus.specs.declared.query.RelKey.{RelKey as Key};
ghost use Rattle.stored_database.specs.Printed.{is_file};
ghost use Rattle.catalog_moves.specs.Files.{files_of, place_at, places_of, greatest_of};

use super::places::find_place;
use super::{FilePlace, FileTable};
use calculus::RelKey;

impl FileTable {
    /// Where what stands under a key lies. A binary search.
    pub(crate) fn at(&self, key: &RelKey) -> Option<&FilePlace>
        ensures { option_map (λ p. p.now) result ≡ place_at (places_of self.now) key.now }
    {
        find_place(&self.places, key)
    }

    /// Whether the file of what stands under a key is known.
    pub fn has(&self, key: &RelKey) -> bool
        ensures { result ≡ is_some (place_at (places_of self.now) key.now) }
    {
        match self.at(key) {
            Some(_) => true,
            None => false,
        }
    }

    /// The file of what stands under a key, and how many pages it has.
    pub fn place(&self, key: &RelKey) -> Option<(u32, u32)>
        ensures none { result ≡ None → (files_of self.now).file key.now ≡ 0 }
        ensures nothing { result ≡ None → (files_of self.now).used key.now ≡ 0 }
        ensures some { ForSome result (λ place. (place.0 ≡ (files_of self.now).file key.now) × (place.1 ≡ (files_of self.now).used key.now)) }
    {
        match self.at(key) {
            Some(place) => Some((place.file, place.used)),
            None => None,
        }
    }

    /// The number of a file that nothing has; `None` only where the numbers are used up.
    pub fn free_file(&self) -> Option<u32>
        ensures number { ForSome result (λ n. is_file n ≡ true) }
        ensures free { ForSome result (λ n. (key : Key) → ((files_of self.now).file key == n) ≡ false) }
        ensures used_up { result ≡ None → 2 ^ 32 ≤ greatest_of self.now + 1 }
    {
        if self.greatest < 16 {
            return Some(16);
        }
        self.greatest.checked_add(1)
    }
}
