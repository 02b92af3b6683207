//! Why a database wasn't made.

ghost use Rattle.std.specs.Prelude.{◌≡◌};
ghost use Rattle.db_disk.specs.declared.fault.CreateFault.TheVariants.{Disk as OfDisk};

use disk_model::DiskFailed;

/// Why a database wasn't made.
#[derive(Clone, Copy, PartialEq, Eq)]
pub enum CreateFault {
    /// There is a database already.
    Exists,
    /// A call of the disk failed; its count rose.
    Disk,
}

impl From<DiskFailed> for CreateFault {
    ghost from_gives = { λ _ fault. fault ≡ OfDisk };

    fn from(_error: DiskFailed) -> CreateFault {
        CreateFault::Disk
    }
}
