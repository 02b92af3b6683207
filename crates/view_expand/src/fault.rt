//! Why there is no expansion.

ghost use Rattle.std.specs.Prelude.{◌≡◌};
ghost use Rattle.view_expand.specs.declared.fault.ExpansionFault.TheVariants.{Base as OfBase, OutOfMemory as NoMemory};

use base_trait::BaseFault;
use calculus::OutOfMemory;

/// Why there is no expansion.
#[derive(Clone, Copy, Debug, PartialEq, Eq)]
pub enum ExpansionFault {
    /// The one who asks has no permit for it.
    NoPermit,
    /// More variables than a query may number; where a database is known, what is asked for beforehand
    /// rules it out.
    TooMany,
    /// A call of the database failed.
    Base(BaseFault),
    /// No memory was left.
    OutOfMemory,
}

impl From<BaseFault> for ExpansionFault {
    ghost from_gives = { λ error fault. fault ≡ OfBase error };

    fn from(error: BaseFault) -> ExpansionFault {
        ExpansionFault::Base(error)
    }
}

impl From<OutOfMemory> for ExpansionFault {
    ghost from_gives = { λ _ fault. fault ≡ NoMemory };

    fn from(_error: OutOfMemory) -> ExpansionFault {
        ExpansionFault::OutOfMemory
    }
}
