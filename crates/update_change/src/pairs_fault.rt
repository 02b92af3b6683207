//! Why a set of pairs makes no change.

ghost use Rattle.std.specs.Prelude.{◌≡◌};
ghost use Rattle.update_change.specs.declared.pairs_fault.ChangeFault.TheVariants.{OutOfMemory as NoMemory};

use calculus::{OutOfMemory, Row};

/// Why a set of pairs makes no change.
#[derive(PartialEq, Eq, Drop)]
pub enum ChangeFault {
    /// An old row has different new rows.
    Contended {
        /// The least such row.
        old: Row,
        /// The least of its new rows.
        first: Row,
        /// The next one.
        second: Row,
    },
    /// More rows would stand than a relation may have.
    TooMany {
        /// How many would stand.
        rows: u64,
    },
    /// No memory was left.
    OutOfMemory,
}

impl From<OutOfMemory> for ChangeFault {
    ghost from_gives = { λ _ fault. fault ≡ NoMemory };

    fn from(_error: OutOfMemory) -> ChangeFault {
        ChangeFault::OutOfMemory
    }
}
