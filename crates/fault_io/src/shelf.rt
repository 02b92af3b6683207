ghost use Rattle.std.specs.Prelude.{◌≡◌, ℕ, Option, Some, IfOk, OnOk, OnErr, option_map};
ghost use Rattle.fault_io.specs.Causes.{HasCause};
ghost use Rattle.fault_io.specs.Files.{Files, fetched, stored};
ghost use Rattle.fault_io.specs.Shelves.{HasShelfCause, KeepsOthers, MayHaveStored};

use crate::traits::Failed;
use std::alloc::Global;

/// Why a file was not fetched.
#[derive(Clone, Copy, Debug, PartialEq, Eq)]
pub enum ShelfFault {
    /// A call of the shelf failed. Its count of faults rose in that call, or stands at its last value,
    /// 2^64 - 1.
    Failed,
    /// No memory was left.
    OutOfMemory,
}

/// Where files are by their names, as a folder or a map.
///
/// Its files are known or not, as with a `Source`. A name is any bytes.
pub trait Shelf {
    /// The files, where they are known.
    ghost files: { Self → Option Files };

    /// How often a call has failed. The count stands still at 2^64 - 1.
    ghost faults: { Self → ℕ };

    /// The bytes of the file of this name; `None` exactly where there is no such file. The count of
    /// faults rose after `Failed`; else it stayed.
    fn fetch(&mut self, alloc: Global, name: &[u8]) -> Result<Option<Vec<u8>>, ShelfFault>
        ensures file { (known : Files) → files self.old ≡ Some known → IfOk result (λ file. option_map (λ bytes. bytes.items) file ≡ fetched known name.now) }
        ensures kept { files self.new ≡ files self.old }
        ensures cause { HasShelfCause (faults self.old) (faults self.new) result };

    /// Stores these bytes as the file of this name, whatever stood there. After `Failed` all files
    /// are as they were, or that one has these bytes and every other one is as it was, and the count of
    /// faults rose; else it stayed.
    fn store(&mut self, name: &[u8], bytes: &[u8]) -> Result<(), Failed>
        ensures file { (known : Files) → files self.old ≡ Some known → OnOk result (files self.new ≡ Some (stored known name.now bytes.now)) }
        ensures others { (known : Files) → files self.old ≡ Some known → OnErr result (KeepsOthers name.now known (files self.new)) }
        ensures failed { (known : Files) → files self.old ≡ Some known → OnErr result (MayHaveStored name.now bytes.now known (files self.new)) }
        ensures cause { HasCause (faults self.old) (faults self.new) result };
}
