//! A change is applied to the pages of a database on a disk.

ghost use Rattle.std.specs.Prelude.{◌≡◌, IsTrue, Some, Err, OnOk, IfOk, IsErrOf, is_some, true, false};
ghost use Rattle.calculus.specs.Change.{IsLawful, laid};
ghost use Rattle.calculus.specs.Database.{Db};
ghost use Rattle.calculus.specs.Schema.{schema_of};
ghost use Rattle.plain_base.specs.Shown.{database_of};
ghost use Rattle.base_trait.specs.Causes.{HasCause};
ghost use Rattle.am_traits.specs.Causes.{HasFileCause};
ghost use Rattle.disk_model.specs.Disk.{Image, IsImage, LeavesOnly};
ghost use Rattle.batch_file.specs.OnDisk.{IsClosed};
ghost use Rattle.batch_file.specs.Redone.{kept, redone};
ghost use Rattle.batch_store.specs.Recovered.{IsOneOf};
ghost use Rattle.batch_store.specs.Store.{disk_of, is_due, pages_of, CameOf};
ghost use Rattle.db_disk.specs.Held.{database_in, held, IsEither, IsReady};
ghost use Rattle.db_disk.specs.Known.{IsKnown, schema_known};

use crate::reopened::{fault_of, reopen};
use base_trait::BaseFault;
use batch_store::BatchStore;
use calculus::DbChange;
use catalog::{Catalog, SpotTable};
use disk_model::Disk;
use std::alloc::Global;

/// Applies all pages that were put. Answers whether there were any: then the store is ready again.
fn finish<D: Disk>(store: &mut BatchStore<D>) -> Result<bool, BaseFault>
    requires { is_due store.old ≡ false }
    ensures stands { (s : _) (m : Image) → CameOf s store.old → IsTrue D.is_known
        → IsClosed (D.seen (disk_of s)) (D.touched (disk_of s)) → pages_of store.old ≡ Some m
        → LeavesOnly D.clock D.left_since (disk_of s) (disk_of store.new) (IsOneOf (kept (D.seen (disk_of s))) m) }
    ensures durable { (s : _) (m : Image) → CameOf s store.old → IsTrue D.is_known
        → IsClosed (D.seen (disk_of s)) (D.touched (disk_of s)) → pages_of store.old ≡ Some m
        → OnOk result ((x : Image) → IsImage (D.seen (disk_of store.new)) (D.touched (disk_of store.new)) x → redone x ≡ Some m) }
    ensures ready { IfOk result (λ laid. laid ≡ true → IsReady store.new) }
    ensures laid { (m : Image) → pages_of store.old ≡ Some m → OnOk result (kept (D.seen (disk_of store.new)) ≡ m) }
    ensures wanted { IsErrOf result BaseFault.OutOfMemory → ⊥ }
    ensures cause { HasFileCause (pages_of store.old) (λ m a. ⊥) (D.faults (disk_of store.old)) (D.faults (disk_of store.new)) result }
{
    let were_put = !store.is_empty();
    match store.finish() {
        Ok(()) => Ok(were_put),
        Err(fault) => Err(fault_of(fault)),
    }
}

/// Applies all pages that were put; where there were none the disk is synced. Then the store is ready again.
fn settle<D: Disk>(store: &mut BatchStore<D>) -> Result<(), BaseFault>
    requires { is_due store.old ≡ false }
    ensures stands { (s : _) (m : Image) → CameOf s store.old → IsTrue D.is_known
        → IsClosed (D.seen (disk_of s)) (D.touched (disk_of s)) → pages_of store.old ≡ Some m
        → LeavesOnly D.clock D.left_since (disk_of s) (disk_of store.new) (IsOneOf (kept (D.seen (disk_of s))) m) }
    ensures durable { (s : _) (m : Image) → CameOf s store.old → IsTrue D.is_known
        → IsClosed (D.seen (disk_of s)) (D.touched (disk_of s)) → pages_of store.old ≡ Some m
        → OnOk result ((x : Image) → IsImage (D.seen (disk_of store.new)) (D.touched (disk_of store.new)) x → redone x ≡ Some m) }
    ensures laid { (s : _) (m : Image) → CameOf s store.old → IsTrue D.is_known
        → IsClosed (D.seen (disk_of s)) (D.touched (disk_of s)) → pages_of store.old ≡ Some m
        → OnOk result (kept (D.seen (disk_of store.new)) ≡ m) }
    ensures ready { OnOk result (IsReady store.new) }
    ensures wanted { IsErrOf result BaseFault.OutOfMemory → ⊥ }
    ensures cause { (s : _) → CameOf s store.old → (IsTrue D.is_known → IsClosed (D.seen (disk_of s)) (D.touched (disk_of s)))
        → HasFileCause (pages_of store.old) (λ m a. ⊥) (D.faults (disk_of store.old)) (D.faults (disk_of store.new)) result }
{
    if finish(store)? {
        return Ok(());
    }
    reopen(store)
}

/// Applies a change to pages that are ready, or gives it up. After Ok the store is ready again, and the
/// catalogue knows what lies there then.
pub(crate) fn apply_change<D: Disk>(
    alloc: Global,
    store: &mut BatchStore<D>,
    catalog: &mut Catalog,
    spots: &mut SpotTable,
    change: &DbChange,
) -> Result<(), BaseFault>
    requires ready { IsReady store.old }
    requires knows { IsTrue D.is_known → IsKnown (D.seen (disk_of store.old)) (Some catalog.old) }
    requires lawful { (db : Db) → database_in store.old ≡ Some db → IsLawful db change.now }
    ensures crash { (db : Db) → database_in store.old ≡ Some db
        → LeavesOnly D.clock D.left_since (disk_of store.old) (disk_of store.new) (IsEither db (laid db change.now)) }
    ensures durable { (db : Db) → database_in store.old ≡ Some db
        → OnOk result ((m : Image) → IsImage (D.seen (disk_of store.new)) (D.touched (disk_of store.new)) m → held m ≡ Some (laid db change.now)) }
    ensures ready { OnOk result (IsReady store.new) }
    ensures knows { IsTrue D.is_known → OnOk result (IsKnown (D.seen (disk_of store.new)) (Some catalog.new)) }
    ensures schema { OnOk result (schema_of (database_of catalog.new.plain) ≡ schema_of (laid (schema_of (database_of catalog.old.plain)) change.now)) }
    ensures no_memory { IsErrOf result BaseFault.OutOfMemory → database_in store.new ≡ database_in store.old }
    ensures cause { HasCause (database_in store.old) (D.faults (disk_of store.old)) (D.faults (disk_of store.new)) result }
{
    match catalog.apply_change(alloc, store, spots, change) {
        Ok(()) => settle(store),
        Err(fault) => {
            store.begin();
            Err(fault)
        }
    }
}

/// Applies a change where the catalogue is there.
pub(crate) fn apply_known<D: Disk>(
    alloc: Global,
    store: &mut BatchStore<D>,
    catalog: &mut Option<Catalog>,
    spots: &mut SpotTable,
    change: &DbChange,
) -> Result<(), BaseFault>
    requires ready { IsReady store.old }
    requires there { IsTrue (is_some catalog.old) }
    requires knows { IsTrue D.is_known → IsKnown (D.seen (disk_of store.old)) catalog.old }
    requires lawful { (db : Db) → database_in store.old ≡ Some db → IsLawful db change.now }
    ensures crash { (db : Db) → database_in store.old ≡ Some db
        → LeavesOnly D.clock D.left_since (disk_of store.old) (disk_of store.new) (IsEither db (laid db change.now)) }
    ensures durable { (db : Db) → database_in store.old ≡ Some db
        → OnOk result ((m : Image) → IsImage (D.seen (disk_of store.new)) (D.touched (disk_of store.new)) m → held m ≡ Some (laid db change.now)) }
    ensures ready { OnOk result (IsReady store.new) }
    ensures there { IsTrue (is_some catalog.new) }
    ensures knows { IsTrue D.is_known → OnOk result (IsKnown (D.seen (disk_of store.new)) catalog.new) }
    ensures schema { (s : Db) → schema_known catalog.old ≡ Some s → OnOk result (schema_known catalog.new ≡ Some (schema_of (laid s change.now))) }
    ensures no_memory { IsErrOf result BaseFault.OutOfMemory → database_in store.new ≡ database_in store.old }
    ensures cause { HasCause (database_in store.old) (D.faults (disk_of store.old)) (D.faults (disk_of store.new)) result }
{
    match catalog {
        Some(cached) => apply_change(alloc, store, cached, spots, change),
        None => unreachable!(),
    }
}
