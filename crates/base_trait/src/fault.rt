//! Why a call of a database failed.

ghost use Rattle.std.specs.Prelude.{◌≡◌};
ghost use Rattle.base_trait.specs.declared.fault.BaseFault.TheVariants.{OutOfMemory as NoMemory};

use calculus::OutOfMemory;

/// Why a call of a database failed.
#[derive(Clone, Copy, Debug, PartialEq, Eq)]
pub enum BaseFault {
    /// A call of the disk failed; its count rose.
    Disk,
    /// The pages denote no database.
    Damaged {
        /// The file of the page that shows it.
        file: u32,
        /// This page's number in its file.
        page: u32,
    },
    /// No memory was left.
    OutOfMemory,
}

impl From<OutOfMemory> for BaseFault {
    ghost from_gives = { λ _ fault. fault ≡ NoMemory };

    fn from(_error: OutOfMemory) -> BaseFault {
        BaseFault::OutOfMemory
    }
}
