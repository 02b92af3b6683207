//! Changes of a table of files.

ghost use Rattle.std.specs.Prelude.{◌≡◌, ◌≤◌, ◌==◌, not, false, [], filter, OnOk, OnErr};
ghost use Rattle.calculus.specs.Keys.{same_key};
ghost use Rattle.calculus.specs.Lists.{insert_by};
ghost use Rattle.calculus.specs.declared.query.RelKey.{RelKey as Key};
ghost use Rattle.catalog_moves.specs.Files.{files_of, places_of, by_place, with_file, on_base};

use super::places::{leave_base, leave_key, put_place};
use super::{FilePlace, FileTable};
use calculus::{OutOfMemory, RelKey, TryCopy};
use std::alloc::Global;

/// The greater one of two numbers.
pub(super) fn greater(one: u32, other: u32) -> u32
    ensures first { one ≤ result }
    ensures second { other ≤ result }
{
    if one < other { other } else { one }
}

impl FileTable {
    /// The table without a file.
    pub(super) fn new(alloc: Global) -> FileTable
        ensures { places_of result ≡ [] }
    {
        FileTable {
            places: Vec::new(alloc),
            greatest: 0,
        }
    }

    /// Says the file of what stands under a key, and of an index the file of its relation, else 0. After
    /// want of memory nothing is changed.
    pub fn put(
        &mut self,
        alloc: Global,
        key: &RelKey,
        file: u32,
        used: u32,
        base: u32,
    ) -> Result<(), OutOfMemory>
        ensures put { OnOk result (files_of self.new ≡ with_file key.now file used (files_of self.old)) }
        ensures places { OnOk result (places_of self.new ≡ insert_by by_place (record { key = key.now; file = file; used = used; base = base }) (places_of self.old)) }
        ensures same { OnErr result (files_of self.new ≡ files_of self.old) }
        ensures kept { OnErr result (places_of self.new ≡ places_of self.old) }
    {
        let key = key.copy(alloc)?;
        let place = FilePlace {
            key,
            file,
            used,
            base,
        };
        put_place(&mut self.places, place)?;
        self.greatest = greater(self.greatest, file);
        Ok(())
    }

    /// Forgets the file of what stood under a key.
    pub fn forget(&mut self, key: &RelKey)
        ensures file { (other : Key) → same_key other key.now ≡ false → (files_of self.new).file other ≡ (files_of self.old).file other }
        ensures used { (other : Key) → same_key other key.now ≡ false → (files_of self.new).used other ≡ (files_of self.old).used other }
        ensures places { places_of self.new ≡ filter (λ p. not (same_key p.key key.now)) (places_of self.old) }
    {
        leave_key(&mut self.places, key);
    }

    /// Forgets the files of the indexes on the relation with this file.
    pub fn forget_indexes(&mut self, file: u32)
        ensures file { (other : Key) → on_base file (places_of self.old) other ≡ false → (files_of self.new).file other ≡ (files_of self.old).file other }
        ensures used { (other : Key) → on_base file (places_of self.old) other ≡ false → (files_of self.new).used other ≡ (files_of self.old).used other }
        ensures places { places_of self.new ≡ filter (λ p. not (p.base == file)) (places_of self.old) }
    {
        leave_base(&mut self.places, file);
    }
}
