//! A change is applied, in memory and on pages.

ghost use Rattle.std.specs.Prelude.{◌≡◌, true, Some, IfOk, OnOk};
ghost use Rattle.am_traits.specs.Causes.{HasFileCause};
ghost use Rattle.calculus.specs.Change.{IsLawful, laid};
ghost use Rattle.calculus.specs.Database.{Db};
ghost use Rattle.calculus.specs.IsDatabase.{IsDatabase};
ghost use Rattle.calculus.specs.Schema.{schema_of};
ghost use Rattle.disk_model.specs.Disk.{Image};
ghost use Rattle.page_chain.specs.Pages.{pages_of};
ghost use Rattle.plain_base.specs.Shown.{database_of};
ghost use Rattle.stored_database.specs.Catalogue.{Catalogue, catalogue_in};
ghost use Rattle.stored_database.specs.After.{changed};
ghost use Rattle.catalog_moves.specs.Bases.{IndexBases};
ghost use Rattle.catalog_moves.specs.Files.{files_of, is_in};
ghost use Rattle.catalog_moves.specs.Moves.{HavePlaces};
ghost use Rattle.catalog_pages.specs.Ends.{AreEnds, NoCatalogue, Written};
ghost use Rattle.catalog_laws.specs.Loaded.{knows_rows};
ghost use Rattle.catalog.specs.Knows.{Knows, KnowsAfter, KnowsNone, KnowsNoneFor};
ghost use Rattle.catalog.specs.Laid.{IsKept, IsPrepared, coming_of, going_of};
ghost use Rattle.catalog.specs.Lies.{LiesAfter, LiesOn};

use crate::catalog::Catalog;
use crate::filling::is_lawful;
use crate::placing::{Given, make_pages};
use crate::spots::SpotTable;
use am_traits::PageStore;
use base_trait::BaseFault;
use calculus::DbChange;
use catalog_moves::{FileTable, KeySet, moves};
use catalog_pages::{Ends, write_moves};
use plain_base::DbPlain;
use std::alloc::Global;

/// Whether the rows that a change names are known.
#[tactic(auto, unfolding(catalog_laws::specs::Loaded::knows_rows))]
pub(crate) fn rows_are_known(loaded: &KeySet, change: &DbChange) -> bool
    ensures { result ≡ knows_rows change.now (is_in loaded.now) }
{
    match change {
        DbChange::Rows {
            rel,
            remove: _,
            add: _,
        } => loaded.has(rel),
        DbChange::Create { info: _, rows: _ } => true,
        DbChange::Destroy { rels: _ } => true,
        DbChange::Modify {
            rel: _,
            to: _,
            keys: _,
        } => true,
        DbChange::Index {
            base: _,
            name: _,
            keys: _,
        } => true,
        DbChange::View { info: _, query: _ } => true,
        DbChange::Permit { rel: _, permit: _ } => true,
        DbChange::Rule { rel: _, rule: _ } => true,
        DbChange::DropPermits { rel: _, numbers: _ } => true,
        DbChange::DropRules { rel: _, numbers: _ } => true,
    }
}

/// Writes the rows of the catalogues that go and come with a lawful change, and answers the last pages
/// afterwards.
fn write_catalogue<S: PageStore>(
    alloc: Global,
    store: &mut S,
    plain: &mut DbPlain,
    files: &FileTable,
    ends: Ends,
    change: &DbChange,
    given: Given,
) -> Result<Ends, BaseFault>
    requires { IsLawful (database_of plain.old) change.now }
    ensures same { database_of plain.new ≡ database_of plain.old }
    ensures places { IfOk result (λ now. HavePlaces (coming_of change.now (files_of files.now) given.file given.used (database_of plain.old))) }
    ensures written { (m : Image) (cat : Catalogue) → S.pages store.old ≡ Some m → AreEnds m ends → catalogue_in (pages_of m) ≡ Some cat
        → IndexBases files.now (database_of plain.old) → IsPrepared change.now (files_of files.now) given.file given.used (database_of plain.old) cat
        → IfOk result (λ now. Written m (S.pages store.new) now
        (changed (going_of change.now (files_of files.now) given.file given.used (database_of plain.old)) (coming_of change.now (files_of files.now) given.file given.used (database_of plain.old)) cat)) }
    ensures came { (s : S) → S.came s store.old → S.came s store.new }
    ensures cause { HasFileCause (S.pages store.old) (NoCatalogue ends) (S.faults store.old) (S.faults store.new) result }
{
    let rows = moves(alloc, plain, files, change, given.file, given.used)?;
    write_moves(alloc, store, ends, &rows)
}

impl Catalog {
    /// Reads the rows that a change names, where they weren't read yet.
    fn read_for<S: PageStore>(
        &mut self,
        alloc: Global,
        store: &mut S,
        spots: &mut SpotTable,
        change: &DbChange,
    ) -> Result<(), BaseFault>
        ensures knows { (m : Image) (db : Db) → S.pages store.old ≡ Some m → IsDatabase db → Knows self.old m db → Knows self.new m db }
        ensures lies { (m : Image) → S.pages store.old ≡ Some m → LiesOn self.old m → LiesOn self.new m }
        ensures schema { schema_of (database_of self.new.plain) ≡ schema_of (database_of self.old.plain) }
        ensures same { S.pages store.new ≡ S.pages store.old }
        ensures came { (s : S) → S.came s store.old → S.came s store.new }
        ensures cause { HasFileCause (S.pages store.old) (KnowsNone self.old) (S.faults store.old) (S.faults store.new) result }
    {
        match change {
            DbChange::Rows {
                rel,
                remove: _,
                add: _,
            } => self.fill(alloc, store, spots, rel),
            _ => Ok(()),
        }
    }

    /// Applies a lawful change in memory and on the pages of the catalogues, where what it makes or changes
    /// lies there.
    pub(crate) fn write_given<S: PageStore>(
        &mut self,
        alloc: Global,
        store: &mut S,
        change: &DbChange,
        given: Given,
    ) -> Result<(), BaseFault>
        requires { IsLawful (database_of self.old.plain) change.now }
        ensures places { OnOk result (HavePlaces (coming_of change.now (files_of self.old.files) given.file given.used (database_of self.old.plain))) }
        ensures written { OnOk result ((m : Image) (cat : Catalogue) → S.pages store.old ≡ Some m → AreEnds m self.old.ends → catalogue_in (pages_of m) ≡ Some cat
            → IndexBases self.old.files (database_of self.old.plain) → IsPrepared change.now (files_of self.old.files) given.file given.used (database_of self.old.plain) cat
            → Written m (S.pages store.new) self.new.ends
            (changed (going_of change.now (files_of self.old.files) given.file given.used (database_of self.old.plain)) (coming_of change.now (files_of self.old.files) given.file given.used (database_of self.old.plain)) cat)) }
        ensures kept { OnOk result (IsKept self.old self.new change.now given.file given.used) }
        ensures came { (s : S) → S.came s store.old → S.came s store.new }
        ensures cause { HasFileCause (S.pages store.old) (NoCatalogue self.old.ends) (S.faults store.old) (S.faults store.new) result }
    {
        let ends = write_catalogue(
            alloc,
            store,
            &mut self.plain,
            &self.files,
            self.ends,
            change,
            given,
        )?;
        self.keep(alloc, change, given)?;
        self.ends = ends;
        Ok(())
    }

    /// Applies a lawful change, on pages and in memory.
    fn write<S: PageStore>(
        &mut self,
        alloc: Global,
        store: &mut S,
        spots: &mut SpotTable,
        change: &DbChange,
    ) -> Result<(), BaseFault>
        requires { IsLawful (database_of self.old.plain) change.now }
        ensures knows { (m : Image) (db : Db) → S.pages store.old ≡ Some m → IsDatabase db → Knows self.old m db → IsLawful db change.now
            → knows_rows change.now (is_in self.old.loaded) ≡ true → OnOk result (KnowsAfter self.new m (S.pages store.new) db change.now) }
        ensures lies { (m : Image) → S.pages store.old ≡ Some m → LiesOn self.old m → knows_rows change.now (is_in self.old.loaded) ≡ true
            → OnOk result (LiesAfter self.new m (S.pages store.new)) }
        ensures plain { OnOk result (database_of self.new.plain ≡ laid (database_of self.old.plain) change.now) }
        ensures came { (s : S) → S.came s store.old → S.came s store.new }
        ensures cause { HasFileCause (S.pages store.old) (KnowsNoneFor self.old change.now) (S.faults store.old) (S.faults store.new) result }
    {
        let given = make_pages(alloc, store, spots, &mut self.plain, &self.files, change)?;
        self.write_given(alloc, store, change, given)
    }
}

impl Catalog {
    /// Applies a change, in memory and on pages, where it is lawful for what is known in memory; else it
    /// answers damage, since a change that is lawful for the database is lawful for that. After an error
    /// nothing is known of the pages, and the catalogue is to be forgotten.
    pub fn apply_change<S: PageStore>(
        &mut self,
        alloc: Global,
        store: &mut S,
        spots: &mut SpotTable,
        change: &DbChange,
    ) -> Result<(), BaseFault>
        ensures knows { (m : Image) (db : Db) → S.pages store.old ≡ Some m → IsDatabase db → Knows self.old m db → IsLawful db change.now
            → OnOk result (KnowsAfter self.new m (S.pages store.new) db change.now) }
        ensures lies { (m : Image) → S.pages store.old ≡ Some m → LiesOn self.old m → OnOk result (LiesAfter self.new m (S.pages store.new)) }
        ensures schema { OnOk result (schema_of (database_of self.new.plain) ≡ schema_of (laid (schema_of (database_of self.old.plain)) change.now)) }
        ensures came { (s : S) → S.came s store.old → S.came s store.new }
        ensures cause { HasFileCause (S.pages store.old) (KnowsNoneFor self.old change.now) (S.faults store.old) (S.faults store.new) result }
    {
        self.read_for(alloc, store, spots, change)?;
        if !rows_are_known(&self.loaded, change) {
            return Err(BaseFault::OutOfMemory);
        }
        if !is_lawful(alloc, &mut self.plain, change)? {
            return Err(BaseFault::Damaged { file: 5, page: 0 });
        }
        self.write(alloc, store, spots, change)
    }
}
