//! Why an update makes no change.

ghost use Rattle.std.specs.Prelude.{◌≡◌};
ghost use Rattle.update_change.specs.declared.fault.UpdateFault.TheVariants.{Base as OfBase, OutOfMemory as NoMemory};

use base_trait::BaseFault;
use calculus::{OutOfMemory, Row};

/// Why an update makes no change.
#[derive(PartialEq, Eq, Drop)]
pub enum UpdateFault {
    /// An old row has different new rows.
    Contended {
        /// The least such row.
        old: Row,
        /// The least of its new rows.
        first: Row,
        /// The next one.
        second: Row,
    },
    /// More rows would stand than a relation may have.
    TooMany {
        /// How many would stand.
        rows: u64,
    },
    /// A call of the database failed.
    Base(BaseFault),
    /// No memory was left.
    OutOfMemory,
}

impl From<BaseFault> for UpdateFault {
    ghost from_gives = { λ error fault. fault ≡ OfBase error };

    fn from(error: BaseFault) -> UpdateFault {
        UpdateFault::Base(error)
    }
}

impl From<OutOfMemory> for UpdateFault {
    ghost from_gives = { λ _ fault. fault ≡ NoMemory };

    fn from(_error: OutOfMemory) -> UpdateFault {
        UpdateFault::OutOfMemory
    }
}
