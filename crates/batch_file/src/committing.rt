// A whole batch at once.
ghost use Rattle.std.specs.Prelude.{◌≡◌, ◌⊎◌, ◌<◌, ◌^◌, Ok, Err, IsTrue, IsOk, OnOk, All, length};
ghost use Rattle.disk_model.specs.Disk.{LeavesOnly};
ghost use Rattle.disk_model.specs.History.{CameSo};
ghost use Rattle.batch_file.specs.Faults.{FailsBy};
ghost use Rattle.batch_file.specs.Layout.{is_place};
ghost use Rattle.batch_file.specs.Redone.{kept, laid, IsShut};
ghost use Rattle.batch_file.specs.OnDisk.{BeforeOrAfter, IsClosed};
ghost use Rattle.batch_file.specs.Order.{Applies, Writes};

use crate::fault::RestoreFault;
use crate::stage::Batch;
use disk_model::{Addr, Disk, Page};

/// Applies all pages on the disk, each at its address, or none. Without a change it does nothing. Takes
/// no memory. Where an address comes twice, the later page stands.
///
/// After an error the disk is restored before it is used further. `Disk` only where a call to the disk
/// failed. `Damaged` where a page of the batch isn't there when it is read again, and no call failed:
/// never on a disk whose content is known.
pub fn commit<D: Disk>(disk: &mut D, changes: &[(Addr, Page)]) -> Result<(), RestoreFault>
    requires shut { IsTrue D.is_known → IsShut (D.seen disk.old) (D.touched disk.old) }
    requires places { All (λ c. IsTrue (is_place c.0)) changes.now }
    requires few { length changes.now < 2 ^ 32 }

    // A crash at any moment leaves the pages of an image of before, with all changes laid over it
    // or none.
    ensures crash { IsTrue D.is_known → LeavesOnly D.clock D.left_since disk.old disk.new
        (BeforeOrAfter (D.seen disk.old) (D.touched disk.old) changes.now) }
    ensures laid { IsTrue D.is_known →
        OnOk result (kept (D.seen disk.new) ≡ kept (laid changes.now (D.seen disk.old))) }
    ensures closed { IsTrue D.is_known →
        OnOk result (0 < length changes.now → IsClosed (D.seen disk.new) (D.touched disk.new)) }
    ensures empty { length changes.now ≡ 0 → (disk.new ≡ disk.old) × IsOk result }
    ensures whole { IsTrue D.is_known → (result ≡ Err RestoreFault.Disk) ⊎ (result ≡ Ok record {}) }
    // Whatever is known of the disk's content, these calls were made and answered Ok.
    ensures made { OnOk result (0 < length changes.now
        → CameSo (D.history disk.old) (D.history disk.new) (Applies (Writes changes.now) (length changes.now))) }
    ensures cause { FailsBy (D.faults disk.old) (D.faults disk.new) result }
{
    let mut batch = Batch::begin();
    for (a, page) in changes {
        batch.add(disk, *a, page)?;
    }
    batch.finish(disk)?;
    Ok(())
}
