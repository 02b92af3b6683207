// Reading a batch, and looking for its first page at fault.
ghost use Rattle.std.specs.Prelude.{◌≡◌, ◌⊎◌, ◌/◌, ◌+◌, ◌≤◌, ℕ, Some, None, Ok, Err, IsTrue, IfOk, OnOk, true, false};
ghost use Rattle.disk_model.specs.Disk.{OnlyReads};
ghost use Rattle.batch_file.specs.Layout.{addr, count, is_place};
ghost use Rattle.batch_file.specs.Redone.{damage};
ghost use Rattle.batch_file.specs.Faults.{IsAnswerOf, FailsBy, IsPage, IsAddress, IsBuffered, IsHeadOf, AreLawful, AreThere};

use crate::fault::RestoreFault;
use crate::layout::{HEAD, MAGIC, address, may_name, number};
use disk_model::{Addr, Disk, DiskFailed, Page};

/// Reads a page that is to be there.
pub fn page<D: Disk>(disk: &mut D, a: Addr, out: &mut Page) -> Result<(), RestoreFault>
    ensures page { IsTrue D.is_known → IsPage (D.seen disk.old a) a out.new result }
    ensures same { IsTrue D.is_known →
        OnlyReads D.seen D.touched D.clock D.left_since disk.old disk.new }
    ensures unwritten { D.history disk.new ≡ D.history disk.old }
    ensures cause { FailsBy (D.faults disk.old) (D.faults disk.new) result }
{
    if disk.read(a, out)? {
        Ok(())
    } else {
        Err(RestoreFault::Damaged {
            file: a.file,
            page: a.page,
        })
    }
}

/// Reads the page of address `k`, where the buffer doesn't hold it already.
fn buffered<D: Disk>(disk: &mut D, k: u32, buffer: &mut Page) -> Result<(), RestoreFault>
    requires { IsTrue D.is_known → IsBuffered (D.seen disk.old) k buffer.old }
    ensures page { IsTrue D.is_known →
        IsPage (D.seen disk.old (addr 3 (k / 128))) (addr 3 (k / 128)) buffer.new result }
    ensures same { IsTrue D.is_known →
        OnlyReads D.seen D.touched D.clock D.left_since disk.old disk.new }
    ensures unwritten { D.history disk.new ≡ D.history disk.old }
    ensures cause { FailsBy (D.faults disk.old) (D.faults disk.new) result }
{
    if k % 128 != 0 {
        return Ok(());
    }
    let at = Addr {
        file: 3,
        page: k / 128,
    };
    page(disk, at, buffer)?;
    Ok(())
}

/// Reads address `k` of the batch. The buffer keeps its page for the next.
pub fn next_address<D: Disk>(disk: &mut D, k: u32, buffer: &mut Page) -> Result<Addr, RestoreFault>
    requires { IsTrue D.is_known → IsBuffered (D.seen disk.old) k buffer.old }
    ensures address { IsTrue D.is_known → IsAddress (D.seen disk.old) k result }
    ensures place { IfOk result (λ a. is_place a ≡ true) }
    ensures buffered { IsTrue D.is_known →
        OnOk result (IsBuffered (D.seen disk.old) (k + 1) buffer.new) }
    ensures same { IsTrue D.is_known →
        OnlyReads D.seen D.touched D.clock D.left_since disk.old disk.new }
    ensures unwritten { D.history disk.new ≡ D.history disk.old }
    ensures cause { FailsBy (D.faults disk.old) (D.faults disk.new) result }
{
    buffered(disk, k, buffer)?;
    let a = address(buffer, k);
    if !may_name(a) {
        return Err(RestoreFault::Damaged {
            file: 3,
            page: k / 128,
        });
    }
    Ok(a)
}

/// The count of a head that is of its form.
fn head<D: Disk>(disk: &mut D) -> Result<u32, RestoreFault>
    ensures head { IsTrue D.is_known → IsHeadOf (D.seen disk.old) result }
    ensures same { IsTrue D.is_known →
        OnlyReads D.seen D.touched D.clock D.left_since disk.old disk.new }
    ensures unwritten { D.history disk.new ≡ D.history disk.old }
    ensures cause { FailsBy (D.faults disk.old) (D.faults disk.new) result }
{
    let mut bytes = [0; 1024];
    page(disk, HEAD, &mut bytes)?;
    let count = number(&bytes, 8);
    if !bytes.starts_with(&MAGIC) || count == 0 {
        return Err(RestoreFault::Damaged { file: 2, page: 0 });
    }
    Ok(count)
}

/// Looks for the first address that isn't there or that a batch may not name.
fn check_addresses<D: Disk>(disk: &mut D, count: u32) -> Result<(), RestoreFault>
    ensures lawful { IsTrue D.is_known → AreLawful (D.seen disk.old) count result }
    ensures same { IsTrue D.is_known →
        OnlyReads D.seen D.touched D.clock D.left_since disk.old disk.new }
    ensures unwritten { D.history disk.new ≡ D.history disk.old }
    ensures cause { FailsBy (D.faults disk.old) (D.faults disk.new) result }
{
    let mut buffer = [0; 1024];
    for k in 0..count {
        next_address(disk, k, &mut buffer)?;
    }
    Ok(())
}

/// Looks for the first image that isn't there.
fn check_images<D: Disk>(disk: &mut D, count: u32) -> Result<(), RestoreFault>
    ensures there { IsTrue D.is_known → AreThere (D.seen disk.old) count result }
    ensures same { IsTrue D.is_known →
        OnlyReads D.seen D.touched D.clock D.left_since disk.old disk.new }
    ensures unwritten { D.history disk.new ≡ D.history disk.old }
    ensures cause { FailsBy (D.faults disk.old) (D.faults disk.new) result }
{
    let mut image = [0; 1024];
    for k in 0..count {
        page(disk, Addr { file: 4, page: k }, &mut image)?;
    }
    Ok(())
}

/// The number of images of a batch that is of its form.
pub fn check<D: Disk>(disk: &mut D) -> Result<u32, RestoreFault>
    ensures answer { IsTrue D.is_known →
        (result ≡ Err RestoreFault.Disk)
        ⊎ IsAnswerOf (damage (D.seen disk.old)) (count (D.seen disk.old)) result }
    ensures same { IsTrue D.is_known →
        OnlyReads D.seen D.touched D.clock D.left_since disk.old disk.new }
    ensures unwritten { D.history disk.new ≡ D.history disk.old }
    ensures cause { FailsBy (D.faults disk.old) (D.faults disk.new) result }
{
    let count = head(disk)?;
    check_addresses(disk, count)?;
    check_images(disk, count)?;
    Ok(count)
}
