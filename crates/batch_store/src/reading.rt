//! Reading a page, from the batch where it is there, else from its place.

ghost use Rattle.std.specs.Prelude.{◌≡◌, IsTrue, IfOk, Some, None, if◌then◌else◌};
ghost use Rattle.fault_io.specs.Causes.{HasCause};
ghost use Rattle.disk_model.specs.Disk.{OnlyReads, RisesUpTo};
ghost use Rattle.batch_file.specs.Redone.{is_kept};
ghost use Rattle.batch_file.specs.Staged.{staged, Holds};
ghost use Rattle.batch_store.specs.Numbers.{number_of, AreBelow, AreNumbered};
ghost use Rattle.batch_store.specs.Recovered.{recovered};

use batch_file::Batch;
use disk_model::{Addr, Disk, DiskFailed, Page};
use std::collections::HashMap;

/// The number of the image that stands for each address of a batch.
pub(crate) type Numbers = HashMap<(u32, u32), u32>;

/// The number that is noted for an address.
pub(crate) fn number_for(numbers: &Numbers, a: Addr) -> Option<u32>
    ensures { result ≡ number_of numbers.now a }
{
    numbers.get(&(a.file, a.page)).copied()
}

/// Whether the pages of a file count.
fn counts(file: u32) -> bool
    ensures { result ≡ is_kept file }
{
    file == 0 || file >= 5
}

/// Reads the page that stands at an address once the batch is applied.
pub(crate) fn read_page<D: Disk>(
    disk: &mut D,
    batch: &Batch,
    numbers: &Numbers,
    a: Addr,
    out: &mut Page,
) -> Result<bool, DiskFailed>
    requires below { AreBelow numbers.now batch.now }
    requires held { IsTrue D.is_known → Holds (D.seen disk.old) batch.now }
    requires numbered { IsTrue D.is_known → AreNumbered numbers.now (staged (D.seen disk.old) batch.now) }
    ensures page { IsTrue D.is_known →
        IfOk result (λ found. recovered (D.seen disk.old) batch.now a ≡ (if found then Some out.new else None)) }
    ensures same { IsTrue D.is_known → OnlyReads D.seen D.touched D.clock D.left_since disk.old disk.new }
    ensures reads { RisesUpTo 1 (D.reads disk.old) (D.reads disk.new) }
    ensures cause { HasCause (D.faults disk.old) (D.faults disk.new) result }
{
    if !counts(a.file) {
        return Ok(false);
    }
    match number_for(numbers, a) {
        Some(i) => {
            batch.image(disk, i, out)?;
            Ok(true)
        }
        None => disk.read(a, out),
    }
}
