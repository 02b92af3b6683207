//! A disk is restored before it is read, and a batch is applied.

ghost use Rattle.std.specs.Prelude.{◌≡◌, ◌≢◌, ℕ, IsErrOf, IsTrue, Some, None, Err, OnOk};
ghost use Rattle.base_trait.specs.Causes.{HasCause};
ghost use Rattle.disk_model.specs.Disk.{LeavesOnly, RisesUpTo};
ghost use Rattle.batch_file.specs.Layout.{gate};
ghost use Rattle.batch_file.specs.OnDisk.{SameRedone};
ghost use Rattle.batch_file.specs.Redone.{answer, kept, redone};
ghost use Rattle.batch_file.specs.declared.fault.RestoreFault.TheVariants.{Damaged as DamagedBatch};
ghost use Rattle.batch_store.specs.Store.{disk_of};
ghost use Rattle.db_disk.specs.Answered.{of_restore};
ghost use Rattle.db_disk.specs.Held.{database_in, IsReady, SameHeld};

use base_trait::BaseFault;
use batch_file::RestoreFault;
use batch_store::BatchStore;
use disk_model::Disk;

/// The fault of a base where a batch isn't applied.
pub(crate) fn fault_of(fault: RestoreFault) -> BaseFault
    ensures { result ≡ of_restore fault }
{
    match fault {
        RestoreFault::Disk => BaseFault::Disk,
        RestoreFault::Damaged { file, page } => BaseFault::Damaged { file, page },
    }
}

/// Applies a batch that was begun, once all that was written is durable. What the disk holds stays.
pub(crate) fn reopen<D: Disk>(store: &mut BatchStore<D>) -> Result<(), BaseFault>
    ensures same { database_in store.new ≡ database_in store.old }
    ensures ready { OnOk result (IsReady store.new) }
    ensures restored { IsTrue D.is_known → OnOk result (redone (D.seen (disk_of store.old)) ≡ Some (kept (D.seen (disk_of store.new)))) }
    ensures damaged { IsTrue D.is_known → (file page : ℕ) → result ≡ Err (BaseFault.Damaged file page) → redone (D.seen (disk_of store.old)) ≡ None }
    // Damage is the first page of the batch at fault.
    ensures at_batch { IsTrue D.is_known → (file page : ℕ) → result ≡ Err (BaseFault.Damaged file page) → answer (D.seen (disk_of store.old)) ≡ Err (DamagedBatch file page) }
    ensures run { IsTrue D.is_known → LeavesOnly D.clock D.left_since (disk_of store.old) (disk_of store.new)
        (SameRedone (D.seen (disk_of store.old)) (D.touched (disk_of store.old))) }
    ensures crash { IsTrue D.is_known → LeavesOnly D.clock D.left_since (disk_of store.old) (disk_of store.new)
        (SameHeld (D.seen (disk_of store.old)) (D.touched (disk_of store.old))) }
    ensures reads { IsTrue D.is_known → gate (D.seen (disk_of store.old)) ≢ 1 → RisesUpTo 1 (D.reads (disk_of store.old)) (D.reads (disk_of store.new)) }
    ensures wanted { IsErrOf result BaseFault.OutOfMemory → ⊥ }
    ensures cause { HasCause (database_in store.old) (D.faults (disk_of store.old)) (D.faults (disk_of store.new)) result }
{
    match store.reopen() {
        Ok(_) => Ok(()),
        Err(fault) => Err(fault_of(fault)),
    }
}
