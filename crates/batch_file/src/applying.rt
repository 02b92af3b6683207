// Opening the gate over a batch, and applying it.
ghost use Rattle.std.specs.Prelude.{◌≡◌, ◌⊎◌, ◌<◌, Ok, Err, IsTrue, OnOk};
ghost use Rattle.fault_io.specs.Causes.{HasCause};
ghost use Rattle.disk_model.specs.Disk.{LeavesOnly};
ghost use Rattle.disk_model.specs.History.{CameSo};
ghost use Rattle.batch_file.specs.Faults.{FailsBy};
ghost use Rattle.batch_file.specs.Layout.{entries};
ghost use Rattle.batch_file.specs.Redone.{redone, kept, laid, IsShut};
ghost use Rattle.batch_file.specs.OnDisk.{BeforeOrAfter, IsWhole, IsOpen, IsClosed};
ghost use Rattle.batch_file.specs.Order.{Heads, Opens, Applies};

use crate::fault::RestoreFault;
use crate::layout::{GATE, HEAD, head_page};
use crate::redo::redo;
use disk_model::{Addr, Disk, DiskFailed, Page};

/// Writes the head of a batch and opens its gate.
fn open_gate<D: Disk>(disk: &mut D, count: u32) -> Result<(), DiskFailed>
    requires some { 0 < count }
    requires shut { IsTrue D.is_known → IsShut (D.seen disk.old) (D.touched disk.old) }
    requires whole { IsTrue D.is_known → IsWhole (D.seen disk.old) count }
    ensures crash { IsTrue D.is_known → LeavesOnly D.clock D.left_since disk.old disk.new
        (BeforeOrAfter (D.seen disk.old) (D.touched disk.old) (entries (D.seen disk.old) count)) }
    ensures opened { IsTrue D.is_known →
        OnOk result (IsOpen (D.seen disk.new) (D.touched disk.new) count) }
    ensures same { IsTrue D.is_known →
        OnOk result (redone (D.seen disk.new)
        ≡ redone (laid (entries (D.seen disk.old) count) (D.seen disk.old))) }
    ensures made { OnOk result (CameSo (D.history disk.old) (D.history disk.new) (Opens (Heads count))) }
    ensures cause { HasCause (D.faults disk.old) (D.faults disk.new) result }
{
    let head = head_page(count);
    disk.write(HEAD, &head)?;
    disk.sync()?;
    let mut gate = [0; 1024];
    gate[0] = 1;
    disk.write(GATE, &gate)?;
    disk.sync()?;
    Ok(())
}

/// Applies a batch whose addresses and images are on the disk. `Damaged` never comes where the disk's content is known
/// what it holds: an image or an address that was written isn't there when it is read, and no call
/// failed. The gate then stays open, so that the next restore says the same.
pub fn apply_batch<D: Disk>(disk: &mut D, count: u32) -> Result<(), RestoreFault>
    requires some { 0 < count }
    requires shut { IsTrue D.is_known → IsShut (D.seen disk.old) (D.touched disk.old) }
    requires whole { IsTrue D.is_known → IsWhole (D.seen disk.old) count }
    ensures crash { IsTrue D.is_known → LeavesOnly D.clock D.left_since disk.old disk.new
        (BeforeOrAfter (D.seen disk.old) (D.touched disk.old) (entries (D.seen disk.old) count)) }
    ensures laid { IsTrue D.is_known →
        OnOk result (kept (D.seen disk.new)
        ≡ kept (laid (entries (D.seen disk.old) count) (D.seen disk.old))) }
    ensures closed { IsTrue D.is_known →
        OnOk result (IsClosed (D.seen disk.new) (D.touched disk.new)) }
    ensures whole { IsTrue D.is_known → (result ≡ Err RestoreFault.Disk) ⊎ (result ≡ Ok record {}) }
    ensures made { OnOk result
        (CameSo (D.history disk.old) (D.history disk.new) (Applies (Heads count) count)) }
    ensures cause { FailsBy (D.faults disk.old) (D.faults disk.new) result }
{
    open_gate(disk, count)?;
    redo(disk, count)?;
    Ok(())
}
