//! What stands under a key gets another file.

ghost use Rattle.std.specs.Prelude.{◌≡◌, ◌≤◌, true, map, is_some};
ghost use Rattle.catalog_moves.specs.Files.{files_of, place_at, places_of, with_file};
ghost use Rattle.catalog_moves.specs.Renumbered.{renumbered, renumbered_place};

use super::putting::greater;
use super::{FilePlace, FileTable};
use crate::asked::place;
use crate::keys::is_same;
use calculus::RelKey;

/// A place, where what stands under the key had the old file and gets this one with so many pages.
fn renumber_place(lies: &mut FilePlace, key: &RelKey, old: u32, file: u32, used: u32)
    ensures { lies.new ≡ renumbered_place key.now old file used lies.old }
{
    if is_same(&lies.key, key) {
        lies.file = file;
        lies.used = used;
        return;
    }
    if old != 0 && lies.base == old {
        lies.base = file;
    }
}

/// All places, where what stands under the key had the old file and gets this one with so many pages.
fn renumber_places(places: &mut Vec<FilePlace>, key: &RelKey, old: u32, file: u32, used: u32)
    ensures { places.new.items ≡ map (renumbered_place key.now old file used) places.old.items }
{
    for lies in places.iter_mut() {
        renumber_place(lies, key, old, file, used);
    }
}

impl FileTable {
    /// What stands under a key gets this file and so many pages, and the places of its indexes say the
    /// file below them. Takes no memory.
    pub(crate) fn renumber(&mut self, key: &RelKey, file: u32, used: u32)
        ensures places { places_of self.new ≡ renumbered key.now file used (places_of self.old) }
        ensures files { is_some (place_at (places_of self.old) key.now) ≡ true → files_of self.new ≡ with_file key.now file used (files_of self.old) }
    {
        let old = place(self, key).0;
        renumber_places(&mut self.places, key, old, file, used);
        self.greatest = greater(self.greatest, file);
    }
}
