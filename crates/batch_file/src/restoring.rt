// Applying the batch that a crash left behind an open gate.
ghost use Rattle.std.specs.Prelude.{◌≡◌, ◌≢◌, ◌⊎◌, ◌↔◌, Some, None, Err, IsTrue, IfOk, OnOk, if◌then◌else◌};
ghost use Rattle.fault_io.specs.Causes.{HasCause};
ghost use Rattle.disk_model.specs.Disk.{OnlyReads, LeavesOnly, RisesUpTo};
ghost use Rattle.disk_model.specs.History.{CameSo};
ghost use Rattle.batch_file.specs.Layout.{first_byte, gate};
ghost use Rattle.batch_file.specs.Redone.{redone, kept, answer};
ghost use Rattle.batch_file.specs.OnDisk.{IsClosed, SameRedone};
ghost use Rattle.batch_file.specs.Faults.{FailsBy};
ghost use Rattle.batch_file.specs.Order.{Restores};

use crate::check::check;
use crate::fault::{RestoreFault, Restored};
use crate::layout::GATE;
use crate::redo::redo;
use disk_model::{Disk, DiskFailed, Page};

/// Whether the gate is open.
fn is_open<D: Disk>(disk: &mut D) -> Result<bool, DiskFailed>
    ensures opened { IsTrue D.is_known →
        IfOk result (λ yes. IsTrue yes ↔ (gate (D.seen disk.old) ≡ 1)) }
    ensures same { IsTrue D.is_known →
        OnlyReads D.seen D.touched D.clock D.left_since disk.old disk.new }
    ensures unwritten { D.history disk.new ≡ D.history disk.old }
    ensures reads { RisesUpTo 1 (D.reads disk.old) (D.reads disk.new) }
    ensures cause { HasCause (D.faults disk.old) (D.faults disk.new) result }
{
    let mut bytes = [0; 1024];
    let found = disk.read(GATE, &mut bytes)?;
    Ok(opens(found, &bytes))
}

/// Whether the page of the gate is there and opens it.
fn opens(found: bool, page: &Page) -> bool
    ensures { IsTrue result ↔ (first_byte (if found then Some page.now else None) ≡ 1) }
{
    found && page[0] == 1
}

/// Applies the batch that a crash left behind an open gate on the disk, and shuts the gate. It begins
/// with a sync. It may be stopped too, and repeated. Takes no memory.
///
/// `Nothing` where the gate is shut, else `Redone` with the number of images. `Damaged` where the
/// gate is open and the batch is not of its form. `Disk` only where a call to the disk failed.
pub fn restore<D: Disk>(disk: &mut D) -> Result<Restored, RestoreFault>
    // The answer is that of what a read gives; only a fault of the disk goes before.
    ensures answer { IsTrue D.is_known →
        (result ≡ Err RestoreFault.Disk) ⊎ (result ≡ answer (D.seen disk.old)) }
    ensures done { IsTrue D.is_known →
        OnOk result (redone (D.seen disk.old) ≡ Some (kept (D.seen disk.new))) }
    ensures closed { IsTrue D.is_known →
        OnOk result (IsClosed (D.seen disk.new) (D.touched disk.new)) }
    ensures crash { IsTrue D.is_known →
        LeavesOnly D.clock D.left_since disk.old disk.new
        (SameRedone (D.seen disk.old) (D.touched disk.old)) }
    // Where the gate is shut, its page is read and no other.
    ensures reads { IsTrue D.is_known → gate (D.seen disk.old) ≢ 1
        → RisesUpTo 1 (D.reads disk.old) (D.reads disk.new) }
    // Whatever is known of the disk's content, these calls were made and answered Ok.
    ensures made { IfOk result (λ done. CameSo (D.history disk.old) (D.history disk.new) (Restores done)) }
    ensures cause { FailsBy (D.faults disk.old) (D.faults disk.new) result }
{
    disk.sync()?;
    if !is_open(disk)? {
        return Ok(Restored::Nothing);
    }
    let count = check(disk)?;
    redo(disk, count)?;
    Ok(Restored::Redone(count))
}
