// Writing a batch to its own files.
ghost use Rattle.std.specs.Prelude.{◌≡◌, ◌≢◌, ◌⊎◌, ◌+◌, ◌-◌, ◌<◌, ◌≤◌, ◌^◌, ◌++◌, ◌∷◌, [], ℕ, Some, true, Ok, Err, IsTrue, IsOk, OnOk, if◌then◌else◌};
ghost use Rattle.fault_io.specs.Causes.{HasCause};
ghost use Rattle.disk_model.specs.Disk.{Image, Changes, Elapses, OnlyReads, LeavesOnly, RisesUpTo};
ghost use Rattle.disk_model.specs.History.{Came, CameSo};
ghost use Rattle.disk_model.specs.declared.calls.Call.TheVariants.{Write as AWrite};
ghost use Rattle.batch_file.specs.Faults.{FailsBy};
ghost use Rattle.batch_file.specs.Layout.{addr, is_place};
ghost use Rattle.batch_file.specs.Redone.{kept, laid, IsShut};
ghost use Rattle.batch_file.specs.OnDisk.{InBatch, SameOutside, BeforeOrAfter, IsClosed, renewed, image_in};

use crate::applying::apply_batch;
use crate::fault::RestoreFault;
use crate::layout::put_address;
use disk_model::{Addr, Disk, DiskFailed, Page};

/// A batch that is being written: pages, each with the address at which it is to stand, which
/// `finish` applies all together to the disk.
///
/// Its calls are for one disk, whose gate is shut, and whose files 2 to 4 read as the calls left
/// them. Until `finish` the gate stays shut, and every other page is as it was. None takes memory.
/// After an error the batch is not used further, and the disk is restored.
pub struct Batch {
    count: u32,
    addresses: Page,
}

impl Drop for Batch {
    fn drop(self) {
        let Self {
            count: _,
            addresses: _,
        } = self;
    }
}

impl Batch {
    ghost use Rattle.batch_file.specs.Order.{Adds, Completes, Applies};
    ghost use Rattle.batch_file.specs.Staged.{size_of, staged, Holds};

    /// A batch without an image.
    pub fn begin() -> Batch
        ensures count { size_of result ≡ 0 }
        ensures held { (m : Image) → Holds m result }
        ensures none { (m : Image) → staged m result ≡ [] }
    {
        Batch {
            count: 0,
            addresses: [0; 1024],
        }
    }

    /// The number of images.
    pub fn count(&self) -> u32
        ensures { result ≡ size_of self.now }
    {
        self.count
    }

    /// Adds a page that is to stand at an address, as the last image. Where an address comes twice,
    /// the later image will stand.
    pub fn add<D: Disk>(&mut self, disk: &mut D, a: Addr, page: &Page) -> Result<(), DiskFailed>
        requires room { size_of self.old < 2 ^ 32 - 1 }
        requires place { IsTrue (is_place a) }
        requires shut { IsTrue D.is_known → IsShut (D.seen disk.old) (D.touched disk.old) }
        requires held { IsTrue D.is_known → Holds (D.seen disk.old) self.old }

        ensures count { OnOk result (size_of self.new ≡ size_of self.old + 1) }
        ensures added { IsTrue D.is_known →
            OnOk result (staged (D.seen disk.new) self.new
            ≡ staged (D.seen disk.old) self.old ++ (a, page.now) ∷ []) }
        ensures held { IsTrue D.is_known → OnOk result (Holds (D.seen disk.new) self.new) }

        ensures change { IsTrue D.is_known → Changes InBatch D.seen D.touched disk.old disk.new }
        ensures shut { IsTrue D.is_known → IsShut (D.seen disk.new) (D.touched disk.new) }
        ensures crash { IsTrue D.is_known →
            LeavesOnly D.clock D.left_since disk.old disk.new
            (SameOutside (D.seen disk.old) (D.touched disk.old)) }
        ensures made { OnOk result (CameSo (D.history disk.old) (D.history disk.new)
            (Adds self.old self.new ((a, page.now) ∷ []))) }
        ensures reads { D.reads disk.new ≡ D.reads disk.old }
        ensures cause { HasCause (D.faults disk.old) (D.faults disk.new) result }
    {
        let k = self.count;
        disk.write(Addr { file: 4, page: k }, page)?;
        put_address(&mut self.addresses, k, a);
        write_if(disk, k % 128 == 127, k / 128, &self.addresses)?;
        self.count = k + 1;
        Ok(())
    }

    /// Puts another page in the place of image `i`.
    pub fn renew<D: Disk>(&mut self, disk: &mut D, i: u32, page: &Page) -> Result<(), DiskFailed>
        requires there { i < size_of self.old }
        requires shut { IsTrue D.is_known → IsShut (D.seen disk.old) (D.touched disk.old) }
        requires held { IsTrue D.is_known → Holds (D.seen disk.old) self.old }

        ensures same { self.new ≡ self.old }
        ensures renewed { IsTrue D.is_known →
            OnOk result (staged (D.seen disk.new) self.new
            ≡ renewed (staged (D.seen disk.old) self.old) i page.now) }
        ensures held { IsTrue D.is_known → OnOk result (Holds (D.seen disk.new) self.new) }

        ensures change { IsTrue D.is_known → Changes InBatch D.seen D.touched disk.old disk.new }
        ensures shut { IsTrue D.is_known → IsShut (D.seen disk.new) (D.touched disk.new) }
        ensures crash { IsTrue D.is_known →
            LeavesOnly D.clock D.left_since disk.old disk.new
            (SameOutside (D.seen disk.old) (D.touched disk.old)) }
        ensures made { OnOk result
            (Came (D.history disk.old) (D.history disk.new) (AWrite (addr 4 i) page.now ∷ [])) }
        ensures reads { D.reads disk.new ≡ D.reads disk.old }
        ensures cause { HasCause (D.faults disk.old) (D.faults disk.new) result }
    {
        disk.write(Addr { file: 4, page: i }, page)?;
        Ok(())
    }

    /// Reads image `i`.
    pub fn image<D: Disk>(&self, disk: &mut D, i: u32, out: &mut Page) -> Result<(), DiskFailed>
        requires there { i < size_of self.now }
        requires held { IsTrue D.is_known → Holds (D.seen disk.old) self.now }
        ensures image { IsTrue D.is_known →
            OnOk result (image_in (staged (D.seen disk.old) self.now) i ≡ Some out.new) }
        ensures same { IsTrue D.is_known →
            OnlyReads D.seen D.touched D.clock D.left_since disk.old disk.new }
        ensures unwritten { D.history disk.new ≡ D.history disk.old }
        ensures reads { RisesUpTo 1 (D.reads disk.old) (D.reads disk.new) }
        ensures cause { HasCause (D.faults disk.old) (D.faults disk.new) result }
    {
        // A disk whose content is known has the page.
        let _found = disk.read(Addr { file: 4, page: i }, out)?;
        Ok(())
    }

    /// Applies all pages of the batch on the disk, or none. Without an image it does nothing.
    ///
    /// `Disk` only where a call to the disk failed. `Damaged` where a page of the batch isn't there when
    /// it is read again, and no call failed: never on a disk whose content is known. The gate then
    /// stays open.
    pub fn finish<D: Disk>(self, disk: &mut D) -> Result<(), RestoreFault>
        requires shut { IsTrue D.is_known → IsShut (D.seen disk.old) (D.touched disk.old) }
        requires held { IsTrue D.is_known → Holds (D.seen disk.old) self }

        // A crash at any moment leaves the pages of an image of before, with the batch laid over
        // it or not.
        ensures crash { IsTrue D.is_known → LeavesOnly D.clock D.left_since disk.old disk.new
            (BeforeOrAfter (D.seen disk.old) (D.touched disk.old) (staged (D.seen disk.old) self)) }
        ensures laid { IsTrue D.is_known →
            OnOk result (kept (D.seen disk.new)
            ≡ kept (laid (staged (D.seen disk.old) self) (D.seen disk.old))) }
        ensures closed { IsTrue D.is_known →
            OnOk result (0 < size_of self → IsClosed (D.seen disk.new) (D.touched disk.new)) }
        ensures empty { size_of self ≡ 0 → (disk.new ≡ disk.old) × IsOk result }
        ensures whole { IsTrue D.is_known → (result ≡ Err RestoreFault.Disk) ⊎ (result ≡ Ok record {}) }
        // Whatever is known of the disk's content, these calls were made and answered Ok.
        ensures made { OnOk result (0 < size_of self
            → CameSo (D.history disk.old) (D.history disk.new) (Applies (Completes self) (size_of self))) }
        ensures cause { FailsBy (D.faults disk.old) (D.faults disk.new) result }
    {
        if self.count == 0 {
            return Ok(());
        }
        write_if(
            disk,
            self.count % 128 != 0,
            self.count / 128,
            &self.addresses,
        )?;
        apply_batch(disk, self.count)?;
        Ok(())
    }
}

/// Writes a page of addresses where it is due.
fn write_if<D: Disk>(disk: &mut D, due: bool, n: u32, addresses: &Page) -> Result<(), DiskFailed>
    ensures written { IsTrue D.is_known →
        OnOk result (IsTrue due → D.seen disk.new (addr 3 n) ≡ Some addresses.now) }
    ensures change { IsTrue D.is_known →
        Changes (λ b. b ≡ addr 3 n) D.seen D.touched disk.old disk.new }
    ensures time { IsTrue D.is_known →
        Elapses D.seen D.touched D.clock D.left_since disk.old disk.new }
    ensures made { OnOk result (Came (D.history disk.old) (D.history disk.new)
        (if due then AWrite (addr 3 n) addresses.now ∷ [] else [])) }
    ensures reads { D.reads disk.new ≡ D.reads disk.old }
    ensures cause { HasCause (D.faults disk.old) (D.faults disk.new) result }
{
    if !due {
        return Ok(());
    }
    disk.write(Addr { file: 3, page: n }, addresses)?;
    Ok(())
}
