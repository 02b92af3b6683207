// Applying a batch on the disk whose gate is open.
ghost use Rattle.std.specs.Prelude.{◌≡◌, ◌⊎◌, ◌+◌, Some, Ok, Err, IsTrue, IfOk, IfErr, OnOk, true};
ghost use Rattle.disk_model.specs.Disk.{OnlyReads, LeavesOnly};
ghost use Rattle.disk_model.specs.History.{CameSo};
ghost use Rattle.batch_file.specs.Layout.{entry, entries, has_image, is_lawful, is_place};
ghost use Rattle.batch_file.specs.Redone.{redone, kept, laid};
ghost use Rattle.batch_file.specs.OnDisk.{IsOpen, IsClosed};
ghost use Rattle.batch_file.specs.Faults.{FailsBy, IsBuffered};
ghost use Rattle.batch_file.specs.Order.{Places, Shuts};

use crate::check::{next_address, page};
use crate::fault::RestoreFault;
use crate::layout::GATE;
use disk_model::{Addr, Disk, DiskFailed, Page};

/// Reads address `k` and image `k` of the batch. The buffer keeps the page of addresses for the next.
fn next_entry<D: Disk>(
    disk: &mut D,
    k: u32,
    buffer: &mut Page,
    image: &mut Page,
) -> Result<Addr, RestoreFault>
    requires { IsTrue D.is_known → IsBuffered (D.seen disk.old) k buffer.old }
    ensures entry { IsTrue D.is_known → IfOk result (λ a. entry (D.seen disk.old) k ≡ (a, image.new)) }
    ensures whole { IsTrue D.is_known → is_lawful (D.seen disk.old) k ≡ true → has_image (D.seen disk.old) k ≡ true
        → IfErr result (λ fault. fault ≡ RestoreFault.Disk) }
    ensures place { IfOk result (λ a. is_place a ≡ true) }
    ensures buffered { IsTrue D.is_known →
        OnOk result (IsBuffered (D.seen disk.old) (k + 1) buffer.new) }
    ensures same { IsTrue D.is_known →
        OnlyReads D.seen D.touched D.clock D.left_since disk.old disk.new }
    ensures unwritten { D.history disk.new ≡ D.history disk.old }
    ensures cause { FailsBy (D.faults disk.old) (D.faults disk.new) result }
{
    let a = next_address(disk, k, buffer)?;
    page(disk, Addr { file: 4, page: k }, image)?;
    Ok(a)
}

/// Writes each image to its place.
fn place_all<D: Disk>(disk: &mut D, count: u32) -> Result<(), RestoreFault>
    requires { IsTrue D.is_known → IsOpen (D.seen disk.old) (D.touched disk.old) count }
    ensures crash { IsTrue D.is_known →
        LeavesOnly D.clock D.left_since disk.old disk.new
        (λ m. redone m ≡ redone (D.seen disk.old)) }
    ensures placed { IsTrue D.is_known →
        OnOk result (D.seen disk.new ≡ laid (entries (D.seen disk.old) count) (D.seen disk.old)) }
    ensures whole { IsTrue D.is_known → (result ≡ Err RestoreFault.Disk) ⊎ (result ≡ Ok record {}) }
    ensures made { OnOk result (CameSo (D.history disk.old) (D.history disk.new) (Places count)) }
    ensures cause { FailsBy (D.faults disk.old) (D.faults disk.new) result }
{
    let mut buffer = [0; 1024];
    let mut image = [0; 1024];
    for k in 0..count {
        let a = next_entry(disk, k, &mut buffer, &mut image)?;
        disk.write(a, &image)?;
    }
    Ok(())
}

/// Applies a batch on the disk whose gate is open, and shuts it. It may crash at any moment.
pub fn redo<D: Disk>(disk: &mut D, count: u32) -> Result<(), RestoreFault>
    requires { IsTrue D.is_known → IsOpen (D.seen disk.old) (D.touched disk.old) count }
    ensures crash { IsTrue D.is_known →
        LeavesOnly D.clock D.left_since disk.old disk.new
        (λ m. redone m ≡ redone (D.seen disk.old)) }
    ensures done { IsTrue D.is_known →
        OnOk result (redone (D.seen disk.old) ≡ Some (kept (D.seen disk.new))) }
    ensures closed { IsTrue D.is_known →
        OnOk result (IsClosed (D.seen disk.new) (D.touched disk.new)) }
    ensures whole { IsTrue D.is_known → (result ≡ Err RestoreFault.Disk) ⊎ (result ≡ Ok record {}) }
    ensures made { OnOk result (CameSo (D.history disk.old) (D.history disk.new) (Shuts count)) }
    ensures cause { FailsBy (D.faults disk.old) (D.faults disk.new) result }
{
    place_all(disk, count)?;
    disk.sync()?;
    disk.write(GATE, &[0; 1024])?;
    disk.sync()?;
    Ok(())
}
