//! Why a statement has no tree.

ghost use Rattle.std.specs.Prelude.{◌≡◌};
ghost use Rattle.utility_trees.specs.declared.fault.CheckFault.TheVariants.{Base as OfBase, OutOfMemory as NoMemory};

use base_trait::BaseFault;
use calculus::OutOfMemory;

/// Why a statement has no tree.
#[derive(Clone, Copy)]
pub enum CheckFault {
    /// The number of what refuses the statement.
    No(u8),
    /// A call of the database failed.
    Base(BaseFault),
    /// No memory was left.
    OutOfMemory,
}

impl From<BaseFault> for CheckFault {
    ghost from_gives = { λ cause fault. fault ≡ OfBase cause };

    fn from(cause: BaseFault) -> CheckFault {
        CheckFault::Base(cause)
    }
}

impl From<OutOfMemory> for CheckFault {
    ghost from_gives = { λ _ fault. fault ≡ NoMemory };

    fn from(_error: OutOfMemory) -> CheckFault {
        CheckFault::OutOfMemory
    }
}
