//! Why a utility makes no change.

ghost use Rattle.std.specs.Prelude.{◌≡◌};
ghost use Rattle.utilities.specs.declared.fault.UtilFault.TheVariants.{Base as OfBase, OutOfMemory as NoMemory};

use base_trait::BaseFault;
use calculus::OutOfMemory;

/// Why a utility makes no change.
#[derive(Clone, Copy, Debug, PartialEq, Eq)]
pub enum UtilFault {
    /// What the utility is asked for is refused, by the cause of this number.
    No(u8),
    /// A call of the database failed.
    Base(BaseFault),
    /// No memory was left.
    OutOfMemory,
}

impl From<BaseFault> for UtilFault {
    ghost from_gives = { λ error fault. fault ≡ OfBase error };

    fn from(error: BaseFault) -> UtilFault {
        UtilFault::Base(error)
    }
}

impl From<OutOfMemory> for UtilFault {
    ghost from_gives = { λ _ fault. fault ≡ NoMemory };

    fn from(_error: OutOfMemory) -> UtilFault {
        UtilFault::OutOfMemory
    }
}
