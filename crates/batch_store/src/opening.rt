//! A store over a disk of which nothing is known yet.

use crate::BatchStore;
use crate::staging::forget;
use batch_file::{Batch, RestoreFault, Restored};
use disk_model::{Disk, DiskFailed};
use std::alloc::Global;
use std::collections::HashMap;

impl<D: Disk> BatchStore<D> {
    ghost use Rattle.std.specs.Prelude.{◌≡◌, ◌≢◌, ◌⊎◌, ℕ, List, [], ◌∷◌, IsTrue, IfOk, OnOk, OnErr, Err, Some, None, true, false};
    ghost use Rattle.fault_io.specs.Causes.{HasCause};
    ghost use Rattle.disk_model.specs.Disk.{Elapses, IsSettled, LeavesOnly, RisesUpTo};
    ghost use Rattle.disk_model.specs.History.{Came, CameSo};
    ghost use Rattle.disk_model.specs.declared.calls.Call.TheVariants.{Sync as ASync};
    ghost use Rattle.disk_model.specs.declared.disk.Addr.{Addr as At};
    ghost use Rattle.batch_file.specs.Faults.{FailsBy};
    ghost use Rattle.batch_file.specs.Layout.{gate};
    ghost use Rattle.batch_file.specs.OnDisk.{SameRedone, IsClosed};
    ghost use Rattle.batch_file.specs.Redone.{answer, kept, redone};
    ghost use Rattle.batch_store.specs.Store.{disk_of, waiting, is_due, pages_of};
    ghost use Rattle.batch_store.specs.Opening.{Reopens};

    /// A store over a disk of which nothing is known yet: a restore is due.
    pub fn unopened(alloc: Global, disk: D) -> BatchStore<D>
        ensures disk { disk_of result ≡ disk }
        ensures empty { waiting result ≡ 0 }
        ensures due { is_due result ≡ true }
    {
        BatchStore {
            disk,
            batch: Batch::begin(),
            numbers: HashMap::new(alloc),
            given: None,
            there: false,
            page: [0; 1024],
            due: true,
        }
    }

    /// Waits until all that was written is durable. A restore is due then.
    fn settle(&mut self) -> Result<(), DiskFailed>
        ensures settled { IsTrue D.is_known → OnOk result (IsSettled (D.touched (disk_of self.new))) }
        ensures seen { IsTrue D.is_known → D.seen (disk_of self.new) ≡ D.seen (disk_of self.old) }
        ensures touched { IsTrue D.is_known → (b : At) → D.touched (disk_of self.new) b → D.touched (disk_of self.old) b }
        ensures time { IsTrue D.is_known → Elapses D.seen D.touched D.clock D.left_since (disk_of self.old) (disk_of self.new) }
        ensures reads { D.reads (disk_of self.new) ≡ D.reads (disk_of self.old) }
        ensures begun { waiting self.new ≡ 0 }
        ensures due { is_due self.new ≡ true }
        ensures made { OnOk result (Came (D.history (disk_of self.old)) (D.history (disk_of self.new)) (ASync ∷ [])) }
        ensures cause { HasCause (D.faults (disk_of self.old)) (D.faults (disk_of self.new)) result }
    {
        forget(&mut self.batch, &mut self.numbers);
        self.given = None;
        self.due = true;
        self.disk.sync()
    }

    /// Restores as `restore` does, once all that was written before is durable. So what the disk stands
    /// for once its batch is applied is the same afterwards, also after an error.
    pub fn reopen(&mut self) -> Result<Restored, RestoreFault>
        // The answer is that of what a read gives, so damage is the first page at fault; only a fault of the disk goes before.
        ensures answer { IsTrue D.is_known →
            (result ≡ Err RestoreFault.Disk) ⊎ (result ≡ answer (D.seen (disk_of self.old))) }
        ensures same { IsTrue D.is_known → redone (D.seen (disk_of self.new)) ≡ redone (D.seen (disk_of self.old)) }
        ensures done { IsTrue D.is_known →
            OnOk result (redone (D.seen (disk_of self.old)) ≡ Some (kept (D.seen (disk_of self.new)))) }
        ensures damaged { IsTrue D.is_known → (file page : ℕ) → result ≡ Err (RestoreFault.Damaged file page)
            → redone (D.seen (disk_of self.old)) ≡ None }
        ensures closed { IsTrue D.is_known →
            OnOk result (IsClosed (D.seen (disk_of self.new)) (D.touched (disk_of self.new))) }
        ensures crash { IsTrue D.is_known →
            LeavesOnly D.clock D.left_since (disk_of self.old) (disk_of self.new)
            (SameRedone (D.seen (disk_of self.old)) (D.touched (disk_of self.old))) }
        // Where the gate is shut, its page is read and no other.
        ensures reads { IsTrue D.is_known → gate (D.seen (disk_of self.old)) ≢ 1
            → RisesUpTo 1 (D.reads (disk_of self.old)) (D.reads (disk_of self.new)) }
        ensures begun { waiting self.new ≡ 0 }
        ensures calm { OnOk result (is_due self.new ≡ false) }
        ensures due { OnErr result (is_due self.new ≡ true) }
        // Whatever is known of the disk's content, these calls were made and answered Ok.
        ensures made { IfOk result (λ done.
            CameSo (D.history (disk_of self.old)) (D.history (disk_of self.new)) (Reopens done)) }
        ensures cause { FailsBy (D.faults (disk_of self.old)) (D.faults (disk_of self.new)) result }
    {
        self.settle()?;
        self.restore()
    }
}
