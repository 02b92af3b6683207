//! What is asked of a database on a disk and told by its schema.

use crate::{DbDisk, asked};
use base_trait::BaseFault;
use calculus::{Name, Permit, Query, RelInfo, RelKey, Rule};
use disk_model::Disk;
use std::alloc::Global;

impl<D: Disk> DbDisk<D> {
    ghost use Rattle.std.specs.Prelude.{◌≡◌, ℕ, IsTrue, Some, IfOk, OnOk, is_some, length};
    ghost use Rattle.calculus.specs.Database.{Db, entries, permits_on, rules_on};
    ghost use Rattle.calculus.specs.Finding.{found};
    ghost use Rattle.base_trait.specs.Causes.{HasCause};
    ghost use Rattle.base_trait.specs.Known.{is_named_by_view, known_at, query_at};
    ghost use Rattle.disk_model.specs.Disk.{LeavesOnly, RisesUpTo};
    ghost use Rattle.db_disk.specs.Held.{SameHeld};
    ghost use Rattle.db_disk.specs.Reads.{OpensBy, files_known};
    ghost use Rattle.db_disk.specs.Shown.{db_of, disk_in, schema_in, StaysRestored};

    /// The name of the administrator.
    pub fn dba(&mut self, alloc: Global) -> Result<Name, BaseFault>
        ensures known { (db : Db) → db_of self.old ≡ Some db → IfOk result (λ name. name ≡ db.dba) }
        ensures by_schema { (s : Db) → schema_in self.new ≡ Some s → IfOk result (λ name. name ≡ s.dba) }
        ensures kept { db_of self.new ≡ db_of self.old }
        ensures keeps { (s : Db) → schema_in self.old ≡ Some s → schema_in self.new ≡ Some s }
        ensures files_stay { (s : Db) → schema_in self.old ≡ Some s → files_known self.new ≡ files_known self.old }
        ensures fixed { OnOk result (IsTrue (is_some (schema_in self.new))) }
        ensures still { (s : Db) → schema_in self.old ≡ Some s → disk_in self.new ≡ disk_in self.old }
        ensures stays { StaysRestored self.old self.new }
        ensures reads { IsTrue D.is_known → (all : ℕ) → OpensBy (D.seen (disk_in self.old)) all → RisesUpTo all (D.reads (disk_in self.old)) (D.reads (disk_in self.new)) }
        ensures crash { IsTrue D.is_known → LeavesOnly D.clock D.left_since (disk_in self.old) (disk_in self.new)
            (SameHeld (D.seen (disk_in self.old)) (D.touched (disk_in self.old))) }
        ensures cause { HasCause (db_of self.old) (D.faults (disk_in self.old)) (D.faults (disk_in self.new)) result }
    {
        self.open(alloc)?;
        asked::dba(&mut self.catalog, alloc)
    }

    /// The number of relations, views and indexes, without the catalogues.
    pub fn count(&mut self) -> Result<u32, BaseFault>
        ensures known { (db : Db) → db_of self.old ≡ Some db → IfOk result (λ n. n ≡ length (entries db)) }
        ensures by_schema { (s : Db) → schema_in self.new ≡ Some s → IfOk result (λ n. n ≡ length (entries s)) }
        ensures kept { db_of self.new ≡ db_of self.old }
        ensures keeps { (s : Db) → schema_in self.old ≡ Some s → schema_in self.new ≡ Some s }
        ensures files_stay { (s : Db) → schema_in self.old ≡ Some s → files_known self.new ≡ files_known self.old }
        ensures fixed { OnOk result (IsTrue (is_some (schema_in self.new))) }
        ensures still { (s : Db) → schema_in self.old ≡ Some s → disk_in self.new ≡ disk_in self.old }
        ensures stays { StaysRestored self.old self.new }
        ensures reads { IsTrue D.is_known → (all : ℕ) → OpensBy (D.seen (disk_in self.old)) all → RisesUpTo all (D.reads (disk_in self.old)) (D.reads (disk_in self.new)) }
        ensures crash { IsTrue D.is_known → LeavesOnly D.clock D.left_since (disk_in self.old) (disk_in self.new)
            (SameHeld (D.seen (disk_in self.old)) (D.touched (disk_in self.old))) }
        ensures cause { HasCause (db_of self.old) (D.faults (disk_in self.old)) (D.faults (disk_in self.new)) result }
    {
        self.open(self.alloc)?;
        asked::count(&mut self.catalog)
    }

    /// What the user means by a name: the user's own relation or view, else the administrator's or the
    /// catalogue.
    pub fn find(
        &mut self,
        alloc: Global,
        name: &Name,
        user: &Name,
    ) -> Result<Option<RelInfo>, BaseFault>
        ensures known { (db : Db) → db_of self.old ≡ Some db → IfOk result (λ info. info ≡ found db user.now name.now) }
        ensures by_schema { (s : Db) → schema_in self.new ≡ Some s → IfOk result (λ info. info ≡ found s user.now name.now) }
        ensures kept { db_of self.new ≡ db_of self.old }
        ensures keeps { (s : Db) → schema_in self.old ≡ Some s → schema_in self.new ≡ Some s }
        ensures files_stay { (s : Db) → schema_in self.old ≡ Some s → files_known self.new ≡ files_known self.old }
        ensures fixed { OnOk result (IsTrue (is_some (schema_in self.new))) }
        ensures still { (s : Db) → schema_in self.old ≡ Some s → disk_in self.new ≡ disk_in self.old }
        ensures stays { StaysRestored self.old self.new }
        ensures reads { IsTrue D.is_known → (all : ℕ) → OpensBy (D.seen (disk_in self.old)) all → RisesUpTo all (D.reads (disk_in self.old)) (D.reads (disk_in self.new)) }
        ensures crash { IsTrue D.is_known → LeavesOnly D.clock D.left_since (disk_in self.old) (disk_in self.new)
            (SameHeld (D.seen (disk_in self.old)) (D.touched (disk_in self.old))) }
        ensures cause { HasCause (db_of self.old) (D.faults (disk_in self.old)) (D.faults (disk_in self.new)) result }
    {
        self.open(alloc)?;
        asked::find(&mut self.catalog, alloc, name, user)
    }

    /// What stands under a key: a relation, a view, an index or a catalogue.
    pub fn info(&mut self, alloc: Global, key: &RelKey) -> Result<Option<RelInfo>, BaseFault>
        ensures known { (db : Db) → db_of self.old ≡ Some db → IfOk result (λ info. info ≡ known_at db key.now) }
        ensures by_schema { (s : Db) → schema_in self.new ≡ Some s → IfOk result (λ info. info ≡ known_at s key.now) }
        ensures kept { db_of self.new ≡ db_of self.old }
        ensures keeps { (s : Db) → schema_in self.old ≡ Some s → schema_in self.new ≡ Some s }
        ensures files_stay { (s : Db) → schema_in self.old ≡ Some s → files_known self.new ≡ files_known self.old }
        ensures fixed { OnOk result (IsTrue (is_some (schema_in self.new))) }
        ensures still { (s : Db) → schema_in self.old ≡ Some s → disk_in self.new ≡ disk_in self.old }
        ensures stays { StaysRestored self.old self.new }
        ensures reads { IsTrue D.is_known → (all : ℕ) → OpensBy (D.seen (disk_in self.old)) all → RisesUpTo all (D.reads (disk_in self.old)) (D.reads (disk_in self.new)) }
        ensures crash { IsTrue D.is_known → LeavesOnly D.clock D.left_since (disk_in self.old) (disk_in self.new)
            (SameHeld (D.seen (disk_in self.old)) (D.touched (disk_in self.old))) }
        ensures cause { HasCause (db_of self.old) (D.faults (disk_in self.old)) (D.faults (disk_in self.new)) result }
    {
        self.open(alloc)?;
        asked::info(&mut self.catalog, alloc, key)
    }

    /// The query of a view; `None` exactly where no view stands under the key.
    pub fn view(&mut self, alloc: Global, key: &RelKey) -> Result<Option<Query>, BaseFault>
        ensures known { (db : Db) → db_of self.old ≡ Some db → IfOk result (λ q. q ≡ query_at db key.now) }
        ensures by_schema { (s : Db) → schema_in self.new ≡ Some s → IfOk result (λ q. q ≡ query_at s key.now) }
        ensures kept { db_of self.new ≡ db_of self.old }
        ensures keeps { (s : Db) → schema_in self.old ≡ Some s → schema_in self.new ≡ Some s }
        ensures files_stay { (s : Db) → schema_in self.old ≡ Some s → files_known self.new ≡ files_known self.old }
        ensures fixed { OnOk result (IsTrue (is_some (schema_in self.new))) }
        ensures still { (s : Db) → schema_in self.old ≡ Some s → disk_in self.new ≡ disk_in self.old }
        ensures stays { StaysRestored self.old self.new }
        ensures reads { IsTrue D.is_known → (all : ℕ) → OpensBy (D.seen (disk_in self.old)) all → RisesUpTo all (D.reads (disk_in self.old)) (D.reads (disk_in self.new)) }
        ensures crash { IsTrue D.is_known → LeavesOnly D.clock D.left_since (disk_in self.old) (disk_in self.new)
            (SameHeld (D.seen (disk_in self.old)) (D.touched (disk_in self.old))) }
        ensures cause { HasCause (db_of self.old) (D.faults (disk_in self.old)) (D.faults (disk_in self.new)) result }
    {
        self.open(alloc)?;
        asked::view(&mut self.catalog, alloc, key)
    }

    /// The rules of a relation, by number.
    pub fn rules(&mut self, alloc: Global, key: &RelKey) -> Result<Vec<Rule>, BaseFault>
        ensures known { (db : Db) → db_of self.old ≡ Some db → IfOk result (λ rs. rs.items ≡ rules_on db key.now) }
        ensures by_schema { (s : Db) → schema_in self.new ≡ Some s → IfOk result (λ rs. rs.items ≡ rules_on s key.now) }
        ensures kept { db_of self.new ≡ db_of self.old }
        ensures keeps { (s : Db) → schema_in self.old ≡ Some s → schema_in self.new ≡ Some s }
        ensures files_stay { (s : Db) → schema_in self.old ≡ Some s → files_known self.new ≡ files_known self.old }
        ensures fixed { OnOk result (IsTrue (is_some (schema_in self.new))) }
        ensures still { (s : Db) → schema_in self.old ≡ Some s → disk_in self.new ≡ disk_in self.old }
        ensures stays { StaysRestored self.old self.new }
        ensures reads { IsTrue D.is_known → (all : ℕ) → OpensBy (D.seen (disk_in self.old)) all → RisesUpTo all (D.reads (disk_in self.old)) (D.reads (disk_in self.new)) }
        ensures crash { IsTrue D.is_known → LeavesOnly D.clock D.left_since (disk_in self.old) (disk_in self.new)
            (SameHeld (D.seen (disk_in self.old)) (D.touched (disk_in self.old))) }
        ensures cause { HasCause (db_of self.old) (D.faults (disk_in self.old)) (D.faults (disk_in self.new)) result }
    {
        self.open(alloc)?;
        asked::rules(&mut self.catalog, alloc, key)
    }

    /// The permits of a relation, by number.
    pub fn permits(&mut self, alloc: Global, key: &RelKey) -> Result<Vec<Permit>, BaseFault>
        ensures known { (db : Db) → db_of self.old ≡ Some db → IfOk result (λ ps. ps.items ≡ permits_on db key.now) }
        ensures by_schema { (s : Db) → schema_in self.new ≡ Some s → IfOk result (λ ps. ps.items ≡ permits_on s key.now) }
        ensures kept { db_of self.new ≡ db_of self.old }
        ensures keeps { (s : Db) → schema_in self.old ≡ Some s → schema_in self.new ≡ Some s }
        ensures files_stay { (s : Db) → schema_in self.old ≡ Some s → files_known self.new ≡ files_known self.old }
        ensures fixed { OnOk result (IsTrue (is_some (schema_in self.new))) }
        ensures still { (s : Db) → schema_in self.old ≡ Some s → disk_in self.new ≡ disk_in self.old }
        ensures stays { StaysRestored self.old self.new }
        ensures reads { IsTrue D.is_known → (all : ℕ) → OpensBy (D.seen (disk_in self.old)) all → RisesUpTo all (D.reads (disk_in self.old)) (D.reads (disk_in self.new)) }
        ensures crash { IsTrue D.is_known → LeavesOnly D.clock D.left_since (disk_in self.old) (disk_in self.new)
            (SameHeld (D.seen (disk_in self.old)) (D.touched (disk_in self.old))) }
        ensures cause { HasCause (db_of self.old) (D.faults (disk_in self.old)) (D.faults (disk_in self.new)) result }
    {
        self.open(alloc)?;
        asked::permits(&mut self.catalog, alloc, key)
    }

    /// Whether some view names the relation under a key, where these views don't count.
    pub fn named_by_view(
        &mut self,
        alloc: Global,
        key: &RelKey,
        but: &[RelKey],
    ) -> Result<bool, BaseFault>
        ensures known { (db : Db) → db_of self.old ≡ Some db → IfOk result (λ b. b ≡ is_named_by_view db but.now key.now) }
        ensures by_schema { (s : Db) → schema_in self.new ≡ Some s → IfOk result (λ b. b ≡ is_named_by_view s but.now key.now) }
        ensures kept { db_of self.new ≡ db_of self.old }
        ensures keeps { (s : Db) → schema_in self.old ≡ Some s → schema_in self.new ≡ Some s }
        ensures files_stay { (s : Db) → schema_in self.old ≡ Some s → files_known self.new ≡ files_known self.old }
        ensures fixed { OnOk result (IsTrue (is_some (schema_in self.new))) }
        ensures still { (s : Db) → schema_in self.old ≡ Some s → disk_in self.new ≡ disk_in self.old }
        ensures stays { StaysRestored self.old self.new }
        ensures reads { IsTrue D.is_known → (all : ℕ) → OpensBy (D.seen (disk_in self.old)) all → RisesUpTo all (D.reads (disk_in self.old)) (D.reads (disk_in self.new)) }
        ensures crash { IsTrue D.is_known → LeavesOnly D.clock D.left_since (disk_in self.old) (disk_in self.new)
            (SameHeld (D.seen (disk_in self.old)) (D.touched (disk_in self.old))) }
        ensures cause { HasCause (db_of self.old) (D.faults (disk_in self.old)) (D.faults (disk_in self.new)) result }
    {
        self.open(alloc)?;
        asked::named_by_view(&mut self.catalog, alloc, key, but)
    }
}
