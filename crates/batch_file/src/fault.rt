ghost use Rattle.std.specs.Prelude.{◌≡◌};
ghost use Rattle.batch_file.specs.declared.fault.RestoreFault.TheVariants.{Disk as DiskFault};

use disk_model::DiskFailed;

/// What a restore did.
#[derive(Clone, Copy, Debug, PartialEq, Eq)]
pub enum Restored {
    /// The gate was shut, so nothing was to be done.
    Nothing,
    /// A batch of so many images was applied to the disk.
    Redone(u32),
}

/// Why a batch wasn't applied.
#[derive(Clone, Copy, Debug, PartialEq, Eq)]
pub enum RestoreFault {
    /// A call to the disk failed.
    Disk,
    /// The gate is open over a batch that is not of its form. Of a restore this is the first page at
    /// fault, in the order head, addresses, images.
    Damaged {
        /// Its file.
        file: u32,
        /// Its number in the file.
        page: u32,
    },
}

impl From<DiskFailed> for RestoreFault {
    ghost from_gives = { λ _ e. e ≡ DiskFault };

    fn from(_failed: DiskFailed) -> Self {
        RestoreFault::Disk
    }
}
