//! Why rows are not copied.

ghost use Rattle.std.specs.Prelude.{◌≡◌};
ghost use Rattle.copy_util.specs.declared.fault.CopyFault.TheVariants.{Base as OfBase, OutOfMemory as NoMemory};

use base_trait::BaseFault;
use calculus::OutOfMemory;

/// Why rows are not copied.
#[derive(Clone, Copy, Debug, PartialEq, Eq)]
pub enum CopyFault {
    /// The copy is refused, by the cause of this number: 28 a catalogue, 26 a view, 24 another's
    /// relation; of a copy from a file also 14, a file that is too long, and 29, too many rows.
    No(u8),
    /// A row is bad, of the file or of the relation, counted from 1.
    BadRow {
        /// The number of the first such row.
        row: u32,
    },
    /// There is no such file.
    NoFile,
    /// A call of the shelf failed.
    Shelf,
    /// A call of the database failed.
    Base(BaseFault),
    /// No memory was left.
    OutOfMemory,
}

impl From<BaseFault> for CopyFault {
    ghost from_gives = { λ error fault. fault ≡ OfBase error };

    fn from(error: BaseFault) -> CopyFault {
        CopyFault::Base(error)
    }
}

impl From<OutOfMemory> for CopyFault {
    ghost from_gives = { λ _ fault. fault ≡ NoMemory };

    fn from(_error: OutOfMemory) -> CopyFault {
        CopyFault::OutOfMemory
    }
}
