//! What is asked of the rows of a database on a disk.

use crate::filling::fill;
use crate::{DbDisk, asked_rows};
use base_trait::BaseFault;
use calculus::{Place, Probe, RelKey, Row};
use disk_model::Disk;
use std::alloc::Global;

impl<D: Disk> DbDisk<D> {
    ghost use Rattle.std.specs.Prelude.{◌≡◌, ◌+◌, ℕ, IsTrue, Some, IfOk, OnOk, is_some, length, true};
    ghost use Rattle.std.specs.Option.{ForSome};
    ghost use Rattle.calculus.specs.Database.{Db, is_relation};
    ghost use Rattle.calculus.specs.IsDatabase.{row_fits};
    ghost use Rattle.calculus.specs.Rows.{has};
    ghost use Rattle.calculus.specs.Stored.{attrs_at, rows_at};
    ghost use Rattle.base_trait.specs.Causes.{HasCause};
    ghost use Rattle.base_trait.specs.Scans.{Gives, IsOver};
    ghost use Rattle.disk_model.specs.Disk.{LeavesOnly, OnlyReads, RisesUpTo};
    ghost use Rattle.plain_base.specs.Shown.{database_of};
    ghost use Rattle.catalog.specs.declared.catalog.Catalog.{Catalog as KnownCatalog};
    ghost use Rattle.db_disk.specs.Held.{SameHeld};
    ghost use Rattle.db_disk.specs.Reads.{OpensBy, files_known, pages_known, rows_in_memory};
    ghost use Rattle.db_disk.specs.Shown.{db_of, disk_in, is_restored, left_of, schema_in, StaysRestored};

    /// Opens the database and reads the rows of a relation.
    fn filled(&mut self, alloc: Global, key: &RelKey) -> Result<(), BaseFault>
        ensures there { OnOk result (IsTrue (is_some self.new.catalog)) }
        ensures rows { (db : Db) → db_of self.old ≡ Some db
            → OnOk result ((c : KnownCatalog) → self.new.catalog ≡ Some c → rows_at (database_of c.plain) key.now ≡ rows_at db key.now) }
        ensures kept { db_of self.new ≡ db_of self.old }
        ensures keeps { (s : Db) → schema_in self.old ≡ Some s → schema_in self.new ≡ Some s }
        ensures files_stay { (s : Db) → schema_in self.old ≡ Some s → files_known self.new ≡ files_known self.old }
        // Where the rows are in memory no page is read; else at most those of the relation's file, once
        // the catalogue is known, and those of an opening before.
        ensures again { rows_in_memory self.old key.now ≡ true → D.reads (disk_in self.new) ≡ D.reads (disk_in self.old) }
        ensures in_memory { OnOk result (rows_in_memory self.new key.now ≡ true) }
        ensures reads { (s : Db) → schema_in self.old ≡ Some s → RisesUpTo (pages_known self.new key.now) (D.reads (disk_in self.old)) (D.reads (disk_in self.new)) }
        ensures opening_reads { IsTrue D.is_known → (all : ℕ) → OpensBy (D.seen (disk_in self.old)) all
            → RisesUpTo (all + pages_known self.new key.now) (D.reads (disk_in self.old)) (D.reads (disk_in self.new)) }
        // Once the catalogue is known the disk is read and nothing else.
        ensures quiet { IsTrue D.is_known → (s : Db) → schema_in self.old ≡ Some s → D.clock (disk_in self.new) ≡ D.clock (disk_in self.old) }
        ensures stays { StaysRestored self.old self.new }
        ensures crash { IsTrue D.is_known → LeavesOnly D.clock D.left_since (disk_in self.old) (disk_in self.new)
            (SameHeld (D.seen (disk_in self.old)) (D.touched (disk_in self.old))) }
        ensures cause { HasCause (db_of self.old) (D.faults (disk_in self.old)) (D.faults (disk_in self.new)) result }
    {
        self.open(alloc)?;
        self.fill_open(alloc, key)
    }

    /// Reads the rows of a relation of a database that is open.
    fn fill_open(&mut self, alloc: Global, key: &RelKey) -> Result<(), BaseFault>
        requires { IsTrue (is_some (schema_in self.old)) }
        ensures there { IsTrue (is_some self.new.catalog) }
        ensures rows { (db : Db) → db_of self.old ≡ Some db
            → OnOk result ((c : KnownCatalog) → self.new.catalog ≡ Some c → rows_at (database_of c.plain) key.now ≡ rows_at db key.now) }
        ensures kept { db_of self.new ≡ db_of self.old }
        ensures schema { schema_in self.new ≡ schema_in self.old }
        ensures files { files_known self.new ≡ files_known self.old }
        ensures stays { is_restored self.new ≡ is_restored self.old }
        ensures reads { RisesUpTo (pages_known self.old key.now) (D.reads (disk_in self.old)) (D.reads (disk_in self.new)) }
        ensures again { rows_in_memory self.old key.now ≡ true → D.reads (disk_in self.new) ≡ D.reads (disk_in self.old) }
        ensures in_memory { OnOk result (rows_in_memory self.new key.now ≡ true) }
        ensures only_reads { IsTrue D.is_known → OnlyReads D.seen D.touched D.clock D.left_since (disk_in self.old) (disk_in self.new) }
        ensures cause { HasCause (db_of self.old) (D.faults (disk_in self.old)) (D.faults (disk_in self.new)) result }
    {
        fill(
            alloc,
            &mut self.store,
            &mut self.catalog,
            &mut self.spots,
            key,
        )
    }

    /// How many rows the relation or catalogue under a key has.
    pub fn size(&mut self, alloc: Global, key: &RelKey) -> Result<u32, BaseFault>
        ensures known { (db : Db) → db_of self.old ≡ Some db → IfOk result (λ n. n ≡ length (rows_at db key.now)) }
        ensures kept { db_of self.new ≡ db_of self.old }
        ensures keeps { (s : Db) → schema_in self.old ≡ Some s → schema_in self.new ≡ Some s }
        ensures files_stay { (s : Db) → schema_in self.old ≡ Some s → files_known self.new ≡ files_known self.old }
        ensures fixed { OnOk result (IsTrue (is_some (schema_in self.new))) }
        // Where the rows are in memory no page is read; else at most those of the relation's file, once
        // the catalogue is known, and those of an opening before.
        ensures again { rows_in_memory self.old key.now ≡ true → D.reads (disk_in self.new) ≡ D.reads (disk_in self.old) }
        ensures in_memory { OnOk result (rows_in_memory self.new key.now ≡ true) }
        ensures reads { (s : Db) → schema_in self.old ≡ Some s → RisesUpTo (pages_known self.new key.now) (D.reads (disk_in self.old)) (D.reads (disk_in self.new)) }
        ensures opening_reads { IsTrue D.is_known → (all : ℕ) → OpensBy (D.seen (disk_in self.old)) all
            → RisesUpTo (all + pages_known self.new key.now) (D.reads (disk_in self.old)) (D.reads (disk_in self.new)) }
        // Once the catalogue is known the disk is read and nothing else.
        ensures quiet { IsTrue D.is_known → (s : Db) → schema_in self.old ≡ Some s → D.clock (disk_in self.new) ≡ D.clock (disk_in self.old) }
        ensures stays { StaysRestored self.old self.new }
        ensures crash { IsTrue D.is_known → LeavesOnly D.clock D.left_since (disk_in self.old) (disk_in self.new)
            (SameHeld (D.seen (disk_in self.old)) (D.touched (disk_in self.old))) }
        ensures cause { HasCause (db_of self.old) (D.faults (disk_in self.old)) (D.faults (disk_in self.new)) result }
    {
        self.filled(alloc, key)?;
        asked_rows::size(&mut self.catalog, alloc, key)
    }

    /// Whether the relation or catalogue under a key has the row.
    pub fn has_row(&mut self, alloc: Global, key: &RelKey, row: &Row) -> Result<bool, BaseFault>
        ensures known { (db : Db) → db_of self.old ≡ Some db → IfOk result (λ b. b ≡ has (rows_at db key.now) row.now) }
        ensures kept { db_of self.new ≡ db_of self.old }
        ensures keeps { (s : Db) → schema_in self.old ≡ Some s → schema_in self.new ≡ Some s }
        ensures files_stay { (s : Db) → schema_in self.old ≡ Some s → files_known self.new ≡ files_known self.old }
        ensures fixed { OnOk result (IsTrue (is_some (schema_in self.new))) }
        // Where the rows are in memory no page is read; else at most those of the relation's file, once
        // the catalogue is known, and those of an opening before.
        ensures again { rows_in_memory self.old key.now ≡ true → D.reads (disk_in self.new) ≡ D.reads (disk_in self.old) }
        ensures in_memory { OnOk result (rows_in_memory self.new key.now ≡ true) }
        ensures reads { (s : Db) → schema_in self.old ≡ Some s → RisesUpTo (pages_known self.new key.now) (D.reads (disk_in self.old)) (D.reads (disk_in self.new)) }
        ensures opening_reads { IsTrue D.is_known → (all : ℕ) → OpensBy (D.seen (disk_in self.old)) all
            → RisesUpTo (all + pages_known self.new key.now) (D.reads (disk_in self.old)) (D.reads (disk_in self.new)) }
        // Once the catalogue is known the disk is read and nothing else.
        ensures quiet { IsTrue D.is_known → (s : Db) → schema_in self.old ≡ Some s → D.clock (disk_in self.new) ≡ D.clock (disk_in self.old) }
        ensures stays { StaysRestored self.old self.new }
        ensures crash { IsTrue D.is_known → LeavesOnly D.clock D.left_since (disk_in self.old) (disk_in self.new)
            (SameHeld (D.seen (disk_in self.old)) (D.touched (disk_in self.old))) }
        ensures cause { HasCause (db_of self.old) (D.faults (disk_in self.old)) (D.faults (disk_in self.new)) result }
    {
        self.filled(alloc, key)?;
        asked_rows::has_row(&mut self.catalog, alloc, key, row)
    }

    /// The next row of the relation or catalogue under a key that meets the probe, from a place on,
    /// which moves behind it.
    pub fn scan(
        &mut self,
        alloc: Global,
        key: &RelKey,
        probe: &Probe,
        at: &mut Place,
    ) -> Result<Option<Row>, BaseFault>
        ensures known { (db : Db) → db_of self.old ≡ Some db → Gives probe.now (left_of self.old key.now) at.old at.new result }
        ensures over { (db : Db) → db_of self.old ≡ Some db → IsOver probe.now (left_of self.old key.now) at.new result }
        // Whatever is known of the disk's content, a row of a base relation fits the attributes that the schema gives it.
        ensures fits { (s : Db) → schema_in self.new ≡ Some s → is_relation s key.now ≡ true
            → IfOk result (λ row. ForSome row (λ r. row_fits (attrs_at s key.now) r ≡ true)) }
        ensures kept { db_of self.new ≡ db_of self.old }
        ensures same { left_of self.new ≡ left_of self.old }
        ensures keeps { (s : Db) → schema_in self.old ≡ Some s → schema_in self.new ≡ Some s }
        ensures files_stay { (s : Db) → schema_in self.old ≡ Some s → files_known self.new ≡ files_known self.old }
        ensures fixed { OnOk result (IsTrue (is_some (schema_in self.new))) }
        // Where the rows are in memory no page is read; else at most those of the relation's file, once
        // the catalogue is known, and those of an opening before.
        ensures again { rows_in_memory self.old key.now ≡ true → D.reads (disk_in self.new) ≡ D.reads (disk_in self.old) }
        ensures in_memory { OnOk result (rows_in_memory self.new key.now ≡ true) }
        ensures reads { (s : Db) → schema_in self.old ≡ Some s → RisesUpTo (pages_known self.new key.now) (D.reads (disk_in self.old)) (D.reads (disk_in self.new)) }
        ensures opening_reads { IsTrue D.is_known → (all : ℕ) → OpensBy (D.seen (disk_in self.old)) all
            → RisesUpTo (all + pages_known self.new key.now) (D.reads (disk_in self.old)) (D.reads (disk_in self.new)) }
        // Once the catalogue is known the disk is read and nothing else.
        ensures quiet { IsTrue D.is_known → (s : Db) → schema_in self.old ≡ Some s → D.clock (disk_in self.new) ≡ D.clock (disk_in self.old) }
        ensures stays { StaysRestored self.old self.new }
        ensures crash { IsTrue D.is_known → LeavesOnly D.clock D.left_since (disk_in self.old) (disk_in self.new)
            (SameHeld (D.seen (disk_in self.old)) (D.touched (disk_in self.old))) }
        ensures cause { HasCause (db_of self.old) (D.faults (disk_in self.old)) (D.faults (disk_in self.new)) result }
    {
        self.filled(alloc, key)?;
        asked_rows::scan(&mut self.catalog, alloc, key, probe, at)
    }
}
