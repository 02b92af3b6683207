//! A database on a disk is opened.

use crate::DbDisk;
use crate::load::{LoadFault, base_fault, load};
use crate::reopened::reopen;
use base_trait::BaseFault;
use disk_model::Disk;
use std::alloc::Global;

impl<D: Disk> DbDisk<D> {
    ghost use Rattle.std.specs.Prelude.{◌≡◌, ◌≢◌, ◌+◌, ℕ, IsTrue, None, Some, Err, OnOk, is_some, true, false};
    ghost use Rattle.calculus.specs.Database.{Db};
    ghost use Rattle.calculus.specs.Schema.{schema_of};
    ghost use Rattle.base_trait.specs.Causes.{HasCause};
    ghost use Rattle.disk_model.specs.Disk.{Image, LeavesOnly, OnlyReads, RisesUpTo};
    ghost use Rattle.calculus.specs.declared.query.RelKey.{RelKey as Key};
    ghost use Rattle.batch_file.specs.Layout.{gate};
    ghost use Rattle.batch_file.specs.Redone.{answer, kept, redone};
    ghost use Rattle.batch_file.specs.declared.fault.RestoreFault.TheVariants.{Damaged as DamagedBatch};
    ghost use Rattle.base_trait.specs.declared.fault.BaseFault.TheVariants.{Damaged as DamagedBase};
    ghost use Rattle.catalog.specs.Damage.{ShowsNone};
    ghost use Rattle.catalog.specs.Reads.{HasChains};
    ghost use Rattle.page_chain.specs.Pages.{pages_of};
    ghost use Rattle.stored_database.specs.Catalogue.{catalogue_in};
    ghost use Rattle.stored_database.specs.Printed.{printed};
    ghost use Rattle.db_disk.specs.Held.{has_head, headless_page, SameHeld};
    ghost use Rattle.db_disk.specs.Load.{as_base, IsNoHead};
    ghost use Rattle.db_disk.specs.Reads.{OpensBy, files_known, rows_in_memory};
    ghost use Rattle.db_disk.specs.Shown.{db_of, disk_in, is_restored, schema_in, StaysRestored};
    ghost use Rattle.db_disk.specs.declared.load.LoadFault.TheVariants.{NoHead as WithoutHead};

    /// Restores the disk, where that wasn't done yet.
    pub(crate) fn restored(&mut self) -> Result<(), BaseFault>
        ensures opened { OnOk result (self.new.is_open ≡ true) }
        ensures kept { db_of self.new ≡ db_of self.old }
        ensures schema { schema_in self.new ≡ schema_in self.old }
        ensures pages { IsTrue D.is_known → OnOk result (redone (D.seen (disk_in self.old)) ≡ Some (kept (D.seen (disk_in self.new)))) }
        ensures damaged { IsTrue D.is_known → (file page : ℕ) → result ≡ Err (BaseFault.Damaged file page) → redone (D.seen (disk_in self.old)) ≡ None }
        ensures at_batch { IsTrue D.is_known → (file page : ℕ) → result ≡ Err (BaseFault.Damaged file page) → answer (D.seen (disk_in self.old)) ≡ Err (DamagedBatch file page) }
        ensures crash { IsTrue D.is_known → LeavesOnly D.clock D.left_since (disk_in self.old) (disk_in self.new)
            (SameHeld (D.seen (disk_in self.old)) (D.touched (disk_in self.old))) }
        ensures catalog { self.new.catalog ≡ self.old.catalog }
        ensures still { self.old.is_open ≡ true → disk_in self.new ≡ disk_in self.old }
        ensures stays { IsTrue (is_restored self.old) → IsTrue (is_restored self.new) }
        ensures reads { IsTrue D.is_known → gate (D.seen (disk_in self.old)) ≢ 1 → RisesUpTo 1 (D.reads (disk_in self.old)) (D.reads (disk_in self.new)) }
        ensures cause { HasCause (db_of self.old) (D.faults (disk_in self.old)) (D.faults (disk_in self.new)) result }
    {
        if self.is_open {
            return Ok(());
        }
        let done = reopen(&mut self.store);
        self.is_open = done.is_ok();
        done
    }

    /// Reads the catalogue, where that wasn't done yet.
    pub(crate) fn loaded(&mut self, alloc: Global) -> Result<(), LoadFault>
        requires { self.old.is_open ≡ true }
        ensures opened { self.new.is_open ≡ true }
        ensures there { OnOk result (IsTrue (is_some (schema_in self.new))) }
        ensures kept { db_of self.new ≡ db_of self.old }
        ensures keeps { (s : Db) → schema_in self.old ≡ Some s → schema_in self.new ≡ Some s }
        ensures only_reads { IsTrue D.is_known → OnlyReads D.seen D.touched D.clock D.left_since (disk_in self.old) (disk_in self.new) }
        ensures no_head { IsTrue D.is_known → (page : ℕ) → result ≡ Err (WithoutHead page) → has_head (kept (D.seen (disk_in self.old))) ≡ false }
        ensures at_head { IsTrue D.is_known → (page : ℕ) → result ≡ Err (WithoutHead page) → page ≡ headless_page (kept (D.seen (disk_in self.old))) }
        ensures at_catalog { IsTrue D.is_known → has_head (kept (D.seen (disk_in self.old))) ≡ true → (file page : ℕ) → as_base result ≡ Err (DamagedBase file page)
            → ShowsNone (kept (D.seen (disk_in self.old))) (record { file = file; page = page }) }
        ensures headless { IsTrue D.is_known → schema_in self.old ≡ None → has_head (kept (D.seen (disk_in self.old))) ≡ false → IsNoHead result }
        ensures catalog { (s : Db) → schema_in self.old ≡ Some s → self.new.catalog ≡ self.old.catalog }
        ensures still { (s : Db) → schema_in self.old ≡ Some s → disk_in self.new ≡ disk_in self.old }
        ensures reads { IsTrue D.is_known → (all : ℕ) → HasChains (kept (D.seen (disk_in self.old))) all → RisesUpTo (all + 2) (D.reads (disk_in self.old)) (D.reads (disk_in self.new)) }
        ensures cause { HasCause (db_of self.old) (D.faults (disk_in self.old)) (D.faults (disk_in self.new)) (as_base result) }
    {
        if self.catalog.is_some() {
            return Ok(());
        }
        match load(alloc, &mut self.store) {
            Ok(catalog) => {
                self.catalog = Some(catalog);
                Ok(())
            }
            Err(fault) => Err(fault),
        }
    }

    /// Restores the disk and reads the catalogue, where that wasn't done yet.
    pub(crate) fn start(&mut self, alloc: Global) -> Result<(), LoadFault>
        ensures there { OnOk result (IsTrue (is_some (schema_in self.new))) }
        ensures kept { db_of self.new ≡ db_of self.old }
        ensures keeps { (s : Db) → schema_in self.old ≡ Some s → schema_in self.new ≡ Some s }
        ensures files_stay { (s : Db) → schema_in self.old ≡ Some s → files_known self.new ≡ files_known self.old }
        ensures no_head { IsTrue D.is_known → (m : Image) (page : ℕ) → redone (D.seen (disk_in self.old)) ≡ Some m → result ≡ Err (WithoutHead page) → has_head m ≡ false }
        // Where no database is there, the page that is named shows it; where the batch isn't of its form, its first page at fault.
        ensures at_head { IsTrue D.is_known → (m : Image) (page : ℕ) → redone (D.seen (disk_in self.old)) ≡ Some m → result ≡ Err (WithoutHead page) → page ≡ headless_page m }
        ensures at_batch { IsTrue D.is_known → redone (D.seen (disk_in self.old)) ≡ None → (file page : ℕ) → as_base result ≡ Err (DamagedBase file page)
            → answer (D.seen (disk_in self.old)) ≡ Err (DamagedBatch file page) }
        ensures at_catalog { IsTrue D.is_known → (m : Image) → redone (D.seen (disk_in self.old)) ≡ Some m → has_head m ≡ true → (file page : ℕ) → as_base result ≡ Err (DamagedBase file page)
            → ShowsNone m (record { file = file; page = page }) }
        ensures headless { IsTrue D.is_known → (m : Image) → redone (D.seen (disk_in self.old)) ≡ Some m → schema_in self.old ≡ None → has_head m ≡ false → IsNoHead result }
        ensures crash { IsTrue D.is_known → LeavesOnly D.clock D.left_since (disk_in self.old) (disk_in self.new)
            (SameHeld (D.seen (disk_in self.old)) (D.touched (disk_in self.old))) }
        // Where the catalogue is in memory no call of the disk is made, and the rows that were read stay there.
        ensures still { (s : Db) → schema_in self.old ≡ Some s → disk_in self.new ≡ disk_in self.old }
        ensures stay { (key : Key) → rows_in_memory self.old key ≡ true → rows_in_memory self.new key ≡ true }
        // Where the disk was restored, nothing but reads is done.
        ensures stays { StaysRestored self.old self.new }
        // Else at most the gate, the header, the birth byte and each page of the catalogues once.
        ensures reads { IsTrue D.is_known → (all : ℕ) → OpensBy (D.seen (disk_in self.old)) all → RisesUpTo all (D.reads (disk_in self.old)) (D.reads (disk_in self.new)) }
        ensures cause { HasCause (db_of self.old) (D.faults (disk_in self.old)) (D.faults (disk_in self.new)) (as_base result) }
    {
        match self.restored() {
            Ok(()) => self.loaded(alloc),
            Err(fault) => Err(LoadFault::Base(fault)),
        }
    }

    /// Opens the database, where that wasn't done yet: restores the disk, which begins with a sync and
    /// applies a batch that was begun, and reads the catalogues, each page once.
    pub fn open(&mut self, alloc: Global) -> Result<(), BaseFault>
        ensures there { OnOk result (IsTrue (is_some (schema_in self.new))) }
        ensures kept { db_of self.new ≡ db_of self.old }
        ensures keeps { (s : Db) → schema_in self.old ≡ Some s → schema_in self.new ≡ Some s }
        ensures files_stay { (s : Db) → schema_in self.old ≡ Some s → files_known self.new ≡ files_known self.old }
        ensures schema { (db : Db) → db_of self.old ≡ Some db → OnOk result (schema_in self.new ≡ Some (schema_of db)) }
        ensures crash { IsTrue D.is_known → LeavesOnly D.clock D.left_since (disk_in self.old) (disk_in self.new)
            (SameHeld (D.seen (disk_in self.old)) (D.touched (disk_in self.old))) }
        // The files that are known are those of the catalogue on the disk.
        ensures files { (db : Db) → db_of self.old ≡ Some db
            → OnOk result (catalogue_in (pages_of (kept (D.seen (disk_in self.new)))) ≡ Some (printed db (files_known self.new))) }
        // Where the catalogue is in memory no call of the disk is made, and the rows that were read stay there.
        ensures still { (s : Db) → schema_in self.old ≡ Some s → disk_in self.new ≡ disk_in self.old }
        ensures stay { (key : Key) → rows_in_memory self.old key ≡ true → rows_in_memory self.new key ≡ true }
        // Where the disk was restored, nothing but reads is done.
        ensures stays { StaysRestored self.old self.new }
        // Else at most the gate, the header, the birth byte and each page of the catalogues once.
        ensures reads { IsTrue D.is_known → (all : ℕ) → OpensBy (D.seen (disk_in self.old)) all → RisesUpTo all (D.reads (disk_in self.old)) (D.reads (disk_in self.new)) }
        // Damage is the first page at fault of a batch that isn't of its form, or the page that shows that no database is there.
        ensures at_batch { IsTrue D.is_known → redone (D.seen (disk_in self.old)) ≡ None → (file page : ℕ) → result ≡ Err (BaseFault.Damaged file page)
            → answer (D.seen (disk_in self.old)) ≡ Err (DamagedBatch file page) }
        ensures at_head { IsTrue D.is_known → (m : Image) → redone (D.seen (disk_in self.old)) ≡ Some m → schema_in self.old ≡ None → has_head m ≡ false
            → (file page : ℕ) → result ≡ Err (BaseFault.Damaged file page) → (file ≡ 0) × (page ≡ headless_page m) }
        // Where there is one, damage is at the page that shows that the catalogues are none of a database.
        ensures at_catalog { IsTrue D.is_known → (m : Image) → redone (D.seen (disk_in self.old)) ≡ Some m → has_head m ≡ true
            → (file page : ℕ) → result ≡ Err (BaseFault.Damaged file page) → ShowsNone m (record { file = file; page = page }) }
        ensures cause { HasCause (db_of self.old) (D.faults (disk_in self.old)) (D.faults (disk_in self.new)) result }
    {
        match self.start(alloc) {
            Ok(()) => Ok(()),
            Err(fault) => Err(base_fault(fault)),
        }
    }
}
