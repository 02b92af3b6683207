//! Why a call of a store of pages failed.

ghost use Rattle.std.specs.Prelude.{◌≡◌};
ghost use Rattle.am_traits.specs.Causes.{of_store};
ghost use Rattle.am_traits.specs.declared.fault.StoreFault.TheVariants.{OutOfMemory as NoMemory};

use base_trait::BaseFault;
use calculus::OutOfMemory;

/// Why a call of a store of pages failed.
#[derive(Clone, Copy, PartialEq, Eq)]
pub enum StoreFault {
    /// A call of the disk failed; the store's count of faults rose.
    Disk,
    /// No memory was left.
    OutOfMemory,
}

impl From<OutOfMemory> for StoreFault {
    ghost from_gives = { λ _ fault. fault ≡ NoMemory };

    fn from(_error: OutOfMemory) -> StoreFault {
        StoreFault::OutOfMemory
    }
}

impl From<StoreFault> for BaseFault {
    ghost from_gives = { λ error fault. fault ≡ of_store error };

    fn from(error: StoreFault) -> BaseFault {
        match error {
            StoreFault::Disk => BaseFault::Disk,
            StoreFault::OutOfMemory => BaseFault::OutOfMemory,
        }
    }
}
