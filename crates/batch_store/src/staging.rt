//! Putting a page into the batch.

ghost use Rattle.std.specs.Prelude.{◌≡◌, ◌≤◌, [], IsTrue, OnOk, Some, None};
ghost use Rattle.disk_model.specs.Disk.{Image, Changes, LeavesOnly};
ghost use Rattle.batch_file.specs.OnDisk.{InBatch, SameOutside};
ghost use Rattle.batch_file.specs.Redone.{IsShut};
ghost use Rattle.batch_file.specs.Staged.{size_of, staged, Holds};
ghost use Rattle.am_traits.specs.Causes.{HasStoreCause};
ghost use Rattle.am_traits.specs.Pages.{with_page};
ghost use Rattle.batch_store.specs.Numbers.{number_of, AreBelow, AreNumbered};
ghost use Rattle.batch_store.specs.Recovered.{recovered};

use crate::reading::{Numbers, number_for};
use am_traits::StoreFault;
use batch_file::Batch;
use disk_model::{Addr, Disk, Page};

/// Forgets what was put.
pub(crate) fn forget(batch: &mut Batch, numbers: &mut Numbers)
    ensures count { size_of batch.new ≡ 0 }
    ensures held { (m : Image) → Holds m batch.new }
    ensures none { (m : Image) → staged m batch.new ≡ [] }
    ensures below { AreBelow numbers.new batch.new }
    ensures numbered { (m : Image) → AreNumbered numbers.new (staged m batch.new) }
{
    *batch = Batch::begin();
    numbers.clear();
}

/// Puts a page in the place of the image of its address, or adds it. After an error nothing is said of
/// the batch and the numbers.
pub(crate) fn stage<D: Disk>(
    disk: &mut D,
    batch: &mut Batch,
    numbers: &mut Numbers,
    a: Addr,
    page: &Page,
) -> Result<(), StoreFault>
    requires place { 5 ≤ a.file }
    requires below { AreBelow numbers.old batch.old }
    requires shut { IsTrue D.is_known → IsShut (D.seen disk.old) (D.touched disk.old) }
    requires held { IsTrue D.is_known → Holds (D.seen disk.old) batch.old }
    requires numbered { IsTrue D.is_known → AreNumbered numbers.old (staged (D.seen disk.old) batch.old) }
    ensures page { IsTrue D.is_known → OnOk result (recovered (D.seen disk.new) batch.new
        ≡ with_page a page.now (recovered (D.seen disk.old) batch.old)) }
    ensures below { OnOk result (AreBelow numbers.new batch.new) }
    ensures held { IsTrue D.is_known → OnOk result (Holds (D.seen disk.new) batch.new) }
    ensures numbered { IsTrue D.is_known →
        OnOk result (AreNumbered numbers.new (staged (D.seen disk.new) batch.new)) }
    ensures shut { IsTrue D.is_known → IsShut (D.seen disk.new) (D.touched disk.new) }
    ensures change { IsTrue D.is_known → Changes InBatch D.seen D.touched disk.old disk.new }
    ensures crash { IsTrue D.is_known → LeavesOnly D.clock D.left_since disk.old disk.new
        (SameOutside (D.seen disk.old) (D.touched disk.old)) }
    ensures reads { D.reads disk.new ≡ D.reads disk.old }
    ensures cause { HasStoreCause (D.faults disk.old) (D.faults disk.new) result }
{
    match number_for(numbers, a) {
        Some(i) => renew(disk, batch, numbers, i, a, page),
        None => add(disk, batch, numbers, a, page),
    }
}

/// Puts a page in the place of image `i`, which is the one of its address.
fn renew<D: Disk>(
    disk: &mut D,
    batch: &mut Batch,
    numbers: &Numbers,
    i: u32,
    a: Addr,
    page: &Page,
) -> Result<(), StoreFault>
    requires place { 5 ≤ a.file }
    requires noted { number_of numbers.now a ≡ Some i }
    requires below { AreBelow numbers.now batch.old }
    requires shut { IsTrue D.is_known → IsShut (D.seen disk.old) (D.touched disk.old) }
    requires held { IsTrue D.is_known → Holds (D.seen disk.old) batch.old }
    requires numbered { IsTrue D.is_known → AreNumbered numbers.now (staged (D.seen disk.old) batch.old) }
    ensures page { IsTrue D.is_known → OnOk result (recovered (D.seen disk.new) batch.new
        ≡ with_page a page.now (recovered (D.seen disk.old) batch.old)) }
    ensures below { AreBelow numbers.now batch.new }
    ensures held { IsTrue D.is_known → OnOk result (Holds (D.seen disk.new) batch.new) }
    ensures numbered { IsTrue D.is_known →
        OnOk result (AreNumbered numbers.now (staged (D.seen disk.new) batch.new)) }
    ensures shut { IsTrue D.is_known → IsShut (D.seen disk.new) (D.touched disk.new) }
    ensures change { IsTrue D.is_known → Changes InBatch D.seen D.touched disk.old disk.new }
    ensures crash { IsTrue D.is_known → LeavesOnly D.clock D.left_since disk.old disk.new
        (SameOutside (D.seen disk.old) (D.touched disk.old)) }
    ensures reads { D.reads disk.new ≡ D.reads disk.old }
    ensures cause { HasStoreCause (D.faults disk.old) (D.faults disk.new) result }
{
    match batch.renew(disk, i, page) {
        Ok(()) => Ok(()),
        Err(_) => Err(StoreFault::Disk),
    }
}

/// Adds a page whose address has no image, and notes its number first.
fn add<D: Disk>(
    disk: &mut D,
    batch: &mut Batch,
    numbers: &mut Numbers,
    a: Addr,
    page: &Page,
) -> Result<(), StoreFault>
    requires place { 5 ≤ a.file }
    requires below { AreBelow numbers.old batch.old }
    requires shut { IsTrue D.is_known → IsShut (D.seen disk.old) (D.touched disk.old) }
    requires held { IsTrue D.is_known → Holds (D.seen disk.old) batch.old }
    requires numbered { IsTrue D.is_known → AreNumbered numbers.old (staged (D.seen disk.old) batch.old) }
    ensures page { IsTrue D.is_known → OnOk result (recovered (D.seen disk.new) batch.new
        ≡ with_page a page.now (recovered (D.seen disk.old) batch.old)) }
    ensures below { OnOk result (AreBelow numbers.new batch.new) }
    ensures held { IsTrue D.is_known → OnOk result (Holds (D.seen disk.new) batch.new) }
    ensures numbered { IsTrue D.is_known →
        OnOk result (AreNumbered numbers.new (staged (D.seen disk.new) batch.new)) }
    ensures shut { IsTrue D.is_known → IsShut (D.seen disk.new) (D.touched disk.new) }
    ensures change { IsTrue D.is_known → Changes InBatch D.seen D.touched disk.old disk.new }
    ensures crash { IsTrue D.is_known → LeavesOnly D.clock D.left_since disk.old disk.new
        (SameOutside (D.seen disk.old) (D.touched disk.old)) }
    ensures reads { D.reads disk.new ≡ D.reads disk.old }
    ensures cause { HasStoreCause (D.faults disk.old) (D.faults disk.new) result }
{
    let k = batch.count();
    if k == u32::MAX || numbers.insert((a.file, a.page), k).is_err() {
        return Err(StoreFault::OutOfMemory);
    }
    match batch.add(disk, a, page) {
        Ok(()) => Ok(()),
        Err(_) => Err(StoreFault::Disk),
    }
}
