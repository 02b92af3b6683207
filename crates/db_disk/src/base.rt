//! A database on a disk, in memory.

ghost use Rattle.std.specs.Prelude.{◌≡◌, IsTrue, Some, true};
ghost use Rattle.std.proofs.Props.{props};
ghost use Rattle.catalog.specs.declared.catalog.Catalog.{Catalog as KnownCatalog};
ghost use Rattle.batch_store.specs.Store.{disk_of};
ghost use Rattle.db_disk.specs.Held.{IsReady};
ghost use Rattle.db_disk.specs.Known.{IsKnown};

use batch_store::BatchStore;
use catalog::{Catalog, SpotTable};
use disk_model::Disk;
use std::alloc::Global;

/// A database on a disk.
///
/// It opens the disk when it is first asked: it restores what was begun there, and reads the catalogues.
/// The rows of a relation are read when they are first asked for. After a call that failed it may forget
/// all that it knows, and opens the disk again at the next call.
pub struct DbDisk<D: Disk> {
    pub(crate) store: BatchStore<D>,
    pub(crate) catalog: Option<Catalog>,
    pub(crate) spots: SpotTable,
    pub(crate) is_open: bool,
    pub(crate) alloc: Global,
    ghost ready: { is_open ≡ true → IsReady store } by { Prim.hlevel props },
    ghost opened: { (c : KnownCatalog) → catalog ≡ Some c → is_open ≡ true },
    ghost knows: { IsTrue D.is_known → IsKnown (D.seen (disk_of store)) catalog } by { Prim.hlevel props },
}

impl<D: Disk + Drop> Drop for DbDisk<D> {
    fn drop(self) {
        let Self {
            store: _,
            catalog: _,
            spots: _,
            is_open: _,
            alloc: _,
        } = self;
    }
}

impl<D: Disk> DbDisk<D> {
    ghost use Rattle.std.specs.Prelude.{None};
    ghost use Rattle.db_disk.specs.Shown.{disk_in, schema_in};

    /// A database on a disk that is opened at the first call. Makes no call of the disk.
    pub fn later(alloc: Global, disk: D) -> DbDisk<D>
        ensures disk { disk_in result ≡ disk }
        ensures schema { schema_in result ≡ None }
    {
        DbDisk {
            store: BatchStore::unopened(alloc, disk),
            catalog: None,
            spots: SpotTable::new(alloc),
            is_open: false,
            alloc,
        }
    }

    /// The disk.
    pub fn disk(&self) -> &D
        ensures { result.now ≡ disk_in self.now }
    {
        self.store.disk()
    }

    /// Gives the disk back.
    pub fn into_disk(self) -> D
        ensures { result ≡ disk_in self }
    {
        let Self {
            store,
            catalog: _,
            spots: _,
            is_open: _,
            alloc: _,
        } = self;
        store.into_disk()
    }
}
