//! The store, and what applies its changes.

ghost use Rattle.std.specs.Prelude.{◌≡◌, Some, None, IsTrue, true, false, if◌then◌else◌};
ghost use Rattle.std.proofs.Props.{props};
ghost use Rattle.disk_model.specs.declared.disk.Addr.{Addr as At};
ghost use Rattle.batch_file.specs.Redone.{IsShut};
ghost use Rattle.batch_file.specs.Staged.{size_of, staged, Holds};
ghost use Rattle.batch_store.specs.Numbers.{AreBelow, AreNumbered};
ghost use Rattle.batch_store.specs.Recovered.{recovered};

use crate::reading::Numbers;
use crate::staging::forget;
use batch_file::{Batch, RestoreFault, Restored, restore};
use disk_model::{Addr, Disk, Page};
use std::alloc::Global;
use std::collections::HashMap;
use std::mem::replace;

/// A store of pages over a disk.
///
/// What is put goes into a batch on the disk as it comes, and only the addresses stay in memory.
/// `finish` then applies all of it, or nothing. A `put` that fails begins the batch anew: the change is
/// given up.
///
/// Once `finish` has failed a restore is due, since the batch may be half applied and its files are
/// needed. Until `restore` has answered Ok nothing can be put: `put` answers want of memory, as it does
/// where the batch has 2^32 - 1 images, the most that its numbers tell apart.
pub struct BatchStore<D: Disk> {
    pub(crate) disk: D,
    pub(crate) batch: Batch,
    pub(crate) numbers: Numbers,
    pub(crate) given: Option<Addr>,
    pub(crate) there: bool,
    pub(crate) page: Page,
    pub(crate) due: bool,
    ghost below: { AreBelow numbers batch },
    ghost empty: { due ≡ true → size_of batch ≡ 0 },
    ghost shut: { IsTrue D.is_known → due ≡ false → IsShut (D.seen disk) (D.touched disk) },
    ghost held: { IsTrue D.is_known → Holds (D.seen disk) batch } by { Prim.hlevel props },
    ghost numbered: { IsTrue D.is_known → AreNumbered numbers (staged (D.seen disk) batch) } by { Prim.hlevel props },
    ghost last: { IsTrue D.is_known → (a : At) → given ≡ Some a
        → recovered (D.seen disk) batch a ≡ (if there then Some page else None) } by { Prim.hlevel props },
}

impl<D: Disk + Drop> Drop for BatchStore<D> {
    fn drop(self) {
        let Self {
            disk: _,
            batch: _,
            numbers: _,
            given: _,
            there: _,
            page: _,
            due: _,
        } = self;
    }
}

impl<D: Disk> BatchStore<D> {
    ghost use Rattle.std.specs.Prelude.{◌≢◌, ◌⊎◌, ◌<◌, ◌↔◌, ℕ, IsOk, IsErr, OnOk, OnErr, IfOk, Ok, Err, not};
    ghost use Rattle.disk_model.specs.Disk.{Image, IsSettled, LeavesOnly, RisesUpTo};
    ghost use Rattle.disk_model.specs.History.{CameSo};
    ghost use Rattle.batch_file.specs.Faults.{FailsBy};
    ghost use Rattle.batch_file.specs.Layout.{gate};
    ghost use Rattle.batch_file.specs.OnDisk.{BeforeOrAfter, SameRedone, IsClosed};
    ghost use Rattle.batch_file.specs.Order.{Completes, Applies, Restores};
    ghost use Rattle.batch_file.specs.Redone.{answer, kept, redone};
    ghost use Rattle.batch_store.specs.Recovered.{IsOneOf};
    ghost use Rattle.batch_store.specs.Store.{disk_of, batch_of, waiting, changes_of, is_due, last_of, pages_of, CameOf};

    /// A store over a disk whose gate is shut: its pages are those that the disk has.
    pub fn over(alloc: Global, disk: D) -> BatchStore<D>
        requires { IsTrue D.is_known → IsShut (D.seen disk) (D.touched disk) }
        ensures disk { disk_of result ≡ disk }
        ensures empty { waiting result ≡ 0 }
        ensures due { is_due result ≡ false }
        ensures pages { IsTrue D.is_known → pages_of result ≡ Some (kept (D.seen disk)) }
    {
        BatchStore {
            disk,
            batch: Batch::begin(),
            numbers: HashMap::new(alloc),
            given: None,
            there: false,
            page: [0; 1024],
            due: false,
        }
    }

    /// The disk.
    pub fn disk(&self) -> &D
        ensures disk { result.now ≡ disk_of self.now }
        ensures shut { IsTrue D.is_known → is_due self.now ≡ false
            → IsShut (D.seen result.now) (D.touched result.now) }
    {
        &self.disk
    }

    /// Gives the disk back. What wasn't applied is forgotten.
    pub fn into_disk(self) -> D
        ensures disk { result ≡ disk_of self }
        ensures shut { IsTrue D.is_known → is_due self ≡ false → IsShut (D.seen result) (D.touched result) }
    {
        let Self {
            disk,
            batch: _,
            numbers: _,
            given: _,
            there: _,
            page: _,
            due: _,
        } = self;
        disk
    }

    /// Whether no page was put since the batch was begun.
    pub fn is_empty(&self) -> bool
        ensures { IsTrue result ↔ (waiting self.now ≡ 0) }
    {
        self.batch.count() == 0
    }

    /// Whether a restore is due.
    pub fn is_due(&self) -> bool
        ensures { result ≡ is_due self.now }
    {
        self.due
    }

    /// Forgets the pages that were put and not applied, and the page that is kept: a change is given up.
    pub fn begin(&mut self)
        // A crash at any moment since a store of which it came leaves the pages of then.
        ensures crash { (s : _) → CameOf s self.old → IsTrue D.is_known
            → LeavesOnly D.clock D.left_since (disk_of s) (disk_of self.new)
            (SameRedone (D.seen (disk_of s)) (D.touched (disk_of s))) }
        ensures came { (s : _) → CameOf s self.old → CameOf s self.new }
        ensures disk { disk_of self.new ≡ disk_of self.old }
        ensures empty { waiting self.new ≡ 0 }
        ensures last { last_of self.new ≡ None }
        ensures due { is_due self.new ≡ is_due self.old }
        ensures pages { IsTrue D.is_known → pages_of self.new ≡ Some (kept (D.seen (disk_of self.old))) }
    {
        forget(&mut self.batch, &mut self.numbers);
        self.given = None;
    }

    /// Applies all pages that were put, or none, and begins anew. Where none was put it does nothing.
    ///
    /// `Disk` only where a call to the disk failed. `Damaged` where a page that was put isn't there when
    /// it is read again, and no call failed: never on a disk whose content is known. After an error a
    /// restore is due.
    pub fn finish(&mut self) -> Result<(), RestoreFault>
        // A crash at any moment since a store of which it came leaves the pages of then, with the
        // changes laid over them or not.
        ensures crash { (s : _) → CameOf s self.old → IsTrue D.is_known
            → LeavesOnly D.clock D.left_since (disk_of s) (disk_of self.new)
            (BeforeOrAfter (D.seen (disk_of s)) (D.touched (disk_of s)) (changes_of self.old)) }
        // Where nothing was touched then and the gate was shut, it leaves the pages of then, or those
        // that were known before this call.
        ensures stands { (s : _) (m : Image) → CameOf s self.old → IsTrue D.is_known
            → IsClosed (D.seen (disk_of s)) (D.touched (disk_of s)) → pages_of self.old ≡ Some m
            → LeavesOnly D.clock D.left_since (disk_of s) (disk_of self.new)
            (IsOneOf (kept (D.seen (disk_of s))) m) }
        ensures laid { (m : Image) → pages_of self.old ≡ Some m →
            OnOk result (kept (D.seen (disk_of self.new)) ≡ m) }
        ensures pages { (m : Image) → pages_of self.old ≡ Some m → OnOk result (pages_of self.new ≡ Some m) }
        ensures closed { IsTrue D.is_known →
            OnOk result (0 < waiting self.old
            → IsClosed (D.seen (disk_of self.new)) (D.touched (disk_of self.new))) }
        ensures empty { waiting self.old ≡ 0 → (disk_of self.new ≡ disk_of self.old) × IsOk result }
        ensures begun { waiting self.new ≡ 0 }
        ensures calm { OnOk result (is_due self.new ≡ is_due self.old) }
        ensures due { OnErr result (is_due self.new ≡ true) }
        ensures whole { IsTrue D.is_known → (result ≡ Err RestoreFault.Disk) ⊎ (result ≡ Ok record {}) }
        // Whatever is known of the disk's content, these calls were made and answered Ok.
        ensures made { OnOk result (0 < waiting self.old
            → CameSo (D.history (disk_of self.old)) (D.history (disk_of self.new))
            (Applies (Completes (batch_of self.old)) (waiting self.old))) }
        ensures cause { FailsBy (D.faults (disk_of self.old)) (D.faults (disk_of self.new)) result }
    {
        if self.batch.count() == 0 {
            return Ok(());
        }
        let batch = replace(&mut self.batch, Batch::begin());
        self.numbers.clear();
        self.given = None;
        let laid = batch.finish(&mut self.disk);
        self.due = laid.is_err();
        laid
    }

    /// Applies the batch that a `finish` which failed left half applied, or finds that nothing is to be applied.
    /// What was put and not applied is forgotten.
    pub fn restore(&mut self) -> Result<Restored, RestoreFault>
        ensures answer { IsTrue D.is_known →
            (result ≡ Err RestoreFault.Disk) ⊎ (result ≡ answer (D.seen (disk_of self.old))) }
        ensures done { IsTrue D.is_known →
            OnOk result (redone (D.seen (disk_of self.old)) ≡ Some (kept (D.seen (disk_of self.new)))) }
        ensures pages { IsTrue D.is_known → pages_of self.new ≡ Some (kept (D.seen (disk_of self.new))) }
        ensures closed { IsTrue D.is_known →
            OnOk result (IsClosed (D.seen (disk_of self.new)) (D.touched (disk_of self.new))) }
        ensures crash { IsTrue D.is_known →
            LeavesOnly D.clock D.left_since (disk_of self.old) (disk_of self.new)
            (SameRedone (D.seen (disk_of self.old)) (D.touched (disk_of self.old))) }
        ensures begun { waiting self.new ≡ 0 }
        ensures calm { OnOk result (is_due self.new ≡ false) }
        ensures due { OnErr result (is_due self.new ≡ true) }
        // Where the gate is shut, its page is read and no other.
        ensures reads { IsTrue D.is_known → gate (D.seen (disk_of self.old)) ≢ 1
            → RisesUpTo 1 (D.reads (disk_of self.old)) (D.reads (disk_of self.new)) }
        ensures made { IfOk result (λ done.
            CameSo (D.history (disk_of self.old)) (D.history (disk_of self.new)) (Restores done)) }
        ensures cause { FailsBy (D.faults (disk_of self.old)) (D.faults (disk_of self.new)) result }
    {
        forget(&mut self.batch, &mut self.numbers);
        self.given = None;
        let done = restore(&mut self.disk);
        self.due = done.is_err();
        done
    }
}
