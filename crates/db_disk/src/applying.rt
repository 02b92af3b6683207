//! A database on a disk is changed.

ghost use Rattle.std.specs.Prelude.{◌≡◌, true};
ghost use Rattle.calculus.specs.Change.{laid};
ghost use Rattle.calculus.specs.Database.{Db};

use crate::DbDisk;
use crate::page_changes::apply_known;
use base_trait::BaseFault;
use calculus::DbChange;
use catalog::SpotTable;
use disk_model::Disk;
use std::alloc::Global;

/// Whether a change is one of rows and names none: then it changes nothing.
fn names_nothing(change: &DbChange) -> bool
    ensures { result ≡ true → (db : Db) → laid db change.now ≡ db }
{
    match change {
        DbChange::Rows {
            rel: _,
            remove,
            add,
        } => remove.items().is_empty() && add.items().is_empty(),
        _ => false,
    }
}

impl<D: Disk> DbDisk<D> {
    ghost use Rattle.std.specs.Prelude.{◌⊎◌, IsTrue, Some, None, OnOk, OnErr, IsErrOf, is_some};
    ghost use Rattle.calculus.specs.Change.{IsLawful};
    ghost use Rattle.calculus.specs.Schema.{schema_of};
    ghost use Rattle.base_trait.specs.Causes.{HasCause};
    ghost use Rattle.disk_model.specs.Disk.{Image, IsImage, LeavesOnly};
    ghost use Rattle.db_disk.specs.Held.{held, HeldOr, IsEither};
    ghost use Rattle.db_disk.specs.Shown.{db_of, disk_in, is_restored, page_kept, schema_in};

    /// Applies a lawful change on a database that is open.
    fn apply_open(&mut self, alloc: Global, change: &DbChange) -> Result<(), BaseFault>
        requires there { IsTrue (is_some (schema_in self.old)) }
        requires lawful { (db : Db) → db_of self.old ≡ Some db → IsLawful db change.now }
        ensures crash { (db : Db) → db_of self.old ≡ Some db
            → LeavesOnly D.clock D.left_since (disk_in self.old) (disk_in self.new) (IsEither db (laid db change.now)) }
        ensures durable { (db : Db) → db_of self.old ≡ Some db
            → OnOk result ((m : Image) → IsImage (D.seen (disk_in self.new)) (D.touched (disk_in self.new)) m → held m ≡ Some (laid db change.now)) }
        ensures schema { (s : Db) → schema_in self.old ≡ Some s → OnOk result (schema_in self.new ≡ Some (schema_of (laid s change.now))) }
        ensures fixed { OnOk result (IsTrue (is_some (schema_in self.new))) }
        ensures no_memory { IsErrOf result BaseFault.OutOfMemory → db_of self.new ≡ db_of self.old }
        ensures cause { HasCause (db_of self.old) (D.faults (disk_in self.old)) (D.faults (disk_in self.new)) result }
    {
        let done = apply_known(
            alloc,
            &mut self.store,
            &mut self.catalog,
            &mut self.spots,
            change,
        );
        match done {
            Ok(()) => Ok(()),
            Err(fault) => {
                self.catalog = None;
                self.spots = SpotTable::new(self.alloc);
                self.is_open = false;
                Err(fault)
            }
        }
    }

    /// Applies a lawful change: all of it or nothing. Once it has answered Ok the change is durable. After
    /// want of memory the database is as before. Where a crash or a fault of the disk comes in between,
    /// the disk holds the database of before or of after. What is known in memory is kept; after an error
    /// it is read anew at the next call.
    pub fn apply(&mut self, alloc: Global, change: &DbChange) -> Result<(), BaseFault>
        requires { (db : Db) → db_of self.old ≡ Some db → IsLawful db change.now }
        ensures known { (db : Db) → db_of self.old ≡ Some db → OnOk result (db_of self.new ≡ Some (laid db change.now)) }
        // A crash at any moment leaves what it might leave at the start, by what the image holds, or the database of after.
        ensures crash { (db : Db) → db_of self.old ≡ Some db
            → LeavesOnly D.clock D.left_since (disk_in self.old) (disk_in self.new)
            (HeldOr (D.seen (disk_in self.old)) (D.touched (disk_in self.old)) (laid db change.now)) }
        // After any fault a database that is known is the one of before or of after.
        ensures failed { (db now : Db) → db_of self.old ≡ Some db → db_of self.new ≡ Some now → OnErr result ((now ≡ db) ⊎ (now ≡ laid db change.now)) }
        // And after Ok a crash leaves that of after.
        ensures durable { (db : Db) → db_of self.old ≡ Some db
            → OnOk result ((m : Image) → IsImage (D.seen (disk_in self.new)) (D.touched (disk_in self.new)) m → held m ≡ Some (laid db change.now)) }
        ensures schema { (s : Db) → schema_in self.old ≡ Some s → OnOk result (schema_in self.new ≡ Some (schema_of (laid s change.now))) }
        ensures fixed { OnOk result (IsTrue (is_some (schema_in self.new))) }
        ensures no_memory { IsErrOf result BaseFault.OutOfMemory → db_of self.new ≡ db_of self.old }
        ensures cause { HasCause (db_of self.old) (D.faults (disk_in self.old)) (D.faults (disk_in self.new)) result }
    {
        self.open(alloc)?;
        if names_nothing(change) {
            return Ok(());
        }
        self.apply_open(alloc, change)
    }

    /// Forgets what was read of the disk: the catalogue, where rows lay, and the page that was read last. So
    /// the next call reads the catalogues again. A disk that was restored isn't restored once more, since only
    /// calls of this database change it. Makes no call of the disk, and takes no memory.
    pub fn hand_over(&mut self)
        ensures disk { disk_in self.new ≡ disk_in self.old }
        ensures kept { db_of self.new ≡ db_of self.old }
        ensures schema { schema_in self.new ≡ None }
        ensures page { page_kept self.new ≡ None }
        ensures stays { is_restored self.new ≡ is_restored self.old }
    {
        self.catalog = None;
        self.spots = SpotTable::new(self.alloc);
        self.store.begin();
    }
}
