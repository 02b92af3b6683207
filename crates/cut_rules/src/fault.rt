//! Why a tree isn't cut, and why a query isn't expanded.

ghost use Rattle.std.specs.Prelude.{◌≡◌};
ghost use Rattle.cut_rules.specs.declared.fault.CutFault.TheVariants.{Base as OfBase, OutOfMemory as NoMemory};
ghost use Rattle.cut_rules.specs.declared.fault.ExpandFault.TheVariants.{Base as ExpandBase, OutOfMemory as ExpandNoMemory};

use base_trait::BaseFault;
use calculus::OutOfMemory;

/// The number in place of a variable's where an aggregate names what isn't permitted, and where the
/// relation of an append may not be appended to.
pub const NO_VARIABLE: u8 = 255;

/// Why a tree isn't restricted to what is permitted.
#[derive(Clone, Copy, Debug, PartialEq, Eq)]
pub enum CutFault {
    /// The user has no permit for it.
    NoPermit {
        /// The place of the variable in its query; 255 for what an aggregate names, and for the relation
        /// of an append.
        var: u8,
    },
    /// More variables than places: no database in which the tree is fit has so many.
    TooMany,
    /// A call of the database failed.
    Base(BaseFault),
    /// No memory was left.
    OutOfMemory,
}

impl From<BaseFault> for CutFault {
    ghost from_gives = { λ error fault. fault ≡ OfBase error };

    fn from(error: BaseFault) -> CutFault {
        CutFault::Base(error)
    }
}

impl From<OutOfMemory> for CutFault {
    ghost from_gives = { λ _ fault. fault ≡ NoMemory };

    fn from(_error: OutOfMemory) -> CutFault {
        CutFault::OutOfMemory
    }
}

/// Why a query isn't expanded.
#[derive(Clone, Copy, Debug, PartialEq, Eq)]
pub enum ExpandFault {
    /// More than 50 variables result.
    TooMany {
        /// How many: at most 4,294,967,295, which stands for any greater number too.
        vars: u32,
    },
    /// A call of the database failed.
    Base(BaseFault),
    /// No memory was left.
    OutOfMemory,
}

impl From<BaseFault> for ExpandFault {
    ghost from_gives = { λ error fault. fault ≡ ExpandBase error };

    fn from(error: BaseFault) -> ExpandFault {
        ExpandFault::Base(error)
    }
}

impl From<OutOfMemory> for ExpandFault {
    ghost from_gives = { λ _ fault. fault ≡ ExpandNoMemory };

    fn from(_error: OutOfMemory) -> ExpandFault {
        ExpandFault::OutOfMemory
    }
}
