//! A change is applied in memory and on the pages of the catalogues alone, and another file is said.

ghost use Rattle.std.specs.Prelude.{◌≡◌, Some, OnOk, IsOk, true, false};
ghost use Rattle.am_traits.specs.Causes.{HasFileCause};
ghost use Rattle.calculus.specs.Change.{IsLawful};
ghost use Rattle.disk_model.specs.Disk.{Image};
ghost use Rattle.plain_base.specs.Shown.{database_of};
ghost use Rattle.catalog_moves.specs.Bases.{IndexBases};
ghost use Rattle.catalog_moves.specs.Files.{files_of, is_in};
ghost use Rattle.catalog_laws.specs.Loaded.{knows_rows};
ghost use Rattle.catalog.specs.Asked.{MayBeFile};
ghost use Rattle.catalog.specs.Spelling.{IsSet, IsWritten, Spells, SpellsAfter, SpellsNone};

use crate::applying::rows_are_known;
use crate::catalog::Catalog;
use crate::placing::place_of;
use am_traits::{PageStore, RelFile};
use base_trait::BaseFault;
use calculus::{DbChange, RelKey};
use catalog_moves::renumber;
use catalog_pages::write_moves;
use std::alloc::Global;

impl Catalog {
    /// Applies a change in memory and on the pages of the catalogues; those of relations are the caller's.
    /// It has to be lawful for what is known in memory; of rows that weren't read nothing is asked, and a
    /// change of these alone changes nothing here, since no page of a catalogue tells rows. What is there
    /// keeps its file and the number of its pages; a relation that is made has one page of a file that
    /// nothing had, until `set_file` says others. After an error nothing is known of the pages, and the
    /// catalogue is to be forgotten.
    pub fn write_change<S: PageStore>(
        &mut self,
        alloc: Global,
        store: &mut S,
        change: &DbChange,
    ) -> Result<(), BaseFault>
        requires { knows_rows change.now (is_in self.old.loaded) ≡ true → IsLawful (database_of self.old.plain) change.now }
        ensures spells { (m : Image) → S.pages store.old ≡ Some m → Spells self.old m → OnOk result (SpellsAfter self.new m (S.pages store.new)) }
        ensures written { knows_rows change.now (is_in self.old.loaded) ≡ true → OnOk result (IsWritten self.old self.new change.now) }
        ensures unread { knows_rows change.now (is_in self.old.loaded) ≡ false → IsOk result × (self.new ≡ self.old) × (store.new ≡ store.old) }
        ensures came { (s : S) → S.came s store.old → S.came s store.new }
        ensures cause { HasFileCause (S.pages store.old) (SpellsNone self.old) (S.faults store.old) (S.faults store.new) result }
    {
        if !rows_are_known(&self.loaded, change) {
            return Ok(());
        }
        let given = place_of(&self.files, change)?;
        self.write_given(alloc, store, change, given)
    }

    /// Says another file of a relation or an index, or another number of its pages; all else that is known
    /// stays. The indexes on it, its rules and its permits follow it. After an error nothing is known of
    /// the pages, and the catalogue is to be forgotten.
    pub fn set_file<S: PageStore>(
        &mut self,
        alloc: Global,
        store: &mut S,
        key: &RelKey,
        file: &RelFile,
    ) -> Result<(), BaseFault>
        requires { MayBeFile (database_of self.old.plain) (files_of self.old.files) key.now file.now }
        ensures spells { (m : Image) → S.pages store.old ≡ Some m → Spells self.old m → OnOk result (SpellsAfter self.new m (S.pages store.new)) }
        ensures set { IndexBases self.old.files (database_of self.old.plain) → OnOk result (IsSet self.old self.new key.now file.now.file file.now.used) }
        ensures came { (s : S) → S.came s store.old → S.came s store.new }
        ensures cause { HasFileCause (S.pages store.old) (SpellsNone self.old) (S.faults store.old) (S.faults store.new) result }
    {
        let rows = renumber(
            alloc,
            &mut self.plain,
            &mut self.files,
            key,
            file.file,
            file.used,
        )?;
        let ends = write_moves(alloc, store, self.ends, &rows)?;
        self.ends = ends;
        Ok(())
    }
}
