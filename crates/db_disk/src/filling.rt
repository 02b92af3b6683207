//! The rows of a relation on a disk are read.

ghost use Rattle.std.specs.Prelude.{◌≡◌, IsTrue, Some, OnOk, is_some, true};
ghost use Rattle.calculus.specs.Database.{Db};
ghost use Rattle.calculus.specs.Stored.{rows_at};
ghost use Rattle.base_trait.specs.Causes.{HasCause};
ghost use Rattle.disk_model.specs.Disk.{OnlyReads, RisesUpTo};
ghost use Rattle.plain_base.specs.Shown.{database_of};
ghost use Rattle.catalog.specs.declared.catalog.Catalog.{Catalog as KnownCatalog};
ghost use Rattle.batch_store.specs.Store.{disk_of};
ghost use Rattle.db_disk.specs.Held.{database_in, IsReady};
ghost use Rattle.db_disk.specs.Known.{IsKnown, schema_known};
ghost use Rattle.db_disk.specs.Reads.{files_in, rows_in};

use base_trait::BaseFault;
use batch_store::BatchStore;
use calculus::RelKey;
use catalog::{Catalog, SpotTable};
use disk_model::Disk;
use std::alloc::Global;

/// Reads the rows of a relation, where they weren't read yet.
pub(crate) fn fill<D: Disk>(
    alloc: Global,
    store: &mut BatchStore<D>,
    catalog: &mut Option<Catalog>,
    spots: &mut SpotTable,
    key: &RelKey,
) -> Result<(), BaseFault>
    requires ready { IsReady store.old }
    requires there { IsTrue (is_some catalog.old) }
    requires knows { IsTrue D.is_known → IsKnown (D.seen (disk_of store.old)) catalog.old }
    ensures ready { IsReady store.new }
    ensures there { IsTrue (is_some catalog.new) }
    ensures knows { IsTrue D.is_known → IsKnown (D.seen (disk_of store.new)) catalog.new }
    ensures kept { database_in store.new ≡ database_in store.old }
    ensures schema { schema_known catalog.new ≡ schema_known catalog.old }
    ensures only_reads { IsTrue D.is_known → OnlyReads D.seen D.touched D.clock D.left_since (disk_of store.old) (disk_of store.new) }
    ensures files { files_in catalog.new ≡ files_in catalog.old }
    ensures reads { RisesUpTo ((files_in catalog.old).used key.now) (D.reads (disk_of store.old)) (D.reads (disk_of store.new)) }
    ensures again { rows_in catalog.old key.now ≡ true → D.reads (disk_of store.new) ≡ D.reads (disk_of store.old) }
    ensures in_memory { OnOk result (rows_in catalog.new key.now ≡ true) }
    ensures rows { (db : Db) → database_in store.old ≡ Some db
        → OnOk result ((c : KnownCatalog) → catalog.new ≡ Some c → rows_at (database_of c.plain) key.now ≡ rows_at db key.now) }
    ensures cause { HasCause (database_in store.old) (D.faults (disk_of store.old)) (D.faults (disk_of store.new)) result }
{
    match catalog {
        Some(cached) => cached.fill(alloc, store, spots, key),
        None => unreachable!(),
    }
}
