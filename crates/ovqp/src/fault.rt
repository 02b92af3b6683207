//! Why a query gives no answer.

ghost use Rattle.std.specs.Prelude.{◌≡◌};
ghost use Rattle.ovqp.specs.declared.fault.QueryFault.TheVariants.{Base as OfBase, OutOfMemory as NoMemory};
ghost use Rattle.ovqp.specs.Given.{given_fault};

use crate::ProductFault;
use base_trait::BaseFault;
use calculus::{List, OutOfMemory, Row};

/// Why a query gives no answer.
#[derive(PartialEq, Eq, Drop)]
pub enum QueryFault {
    /// A target has no value in an assignment in which the qualification holds.
    NoValue {
        /// The rows of the variables in that assignment, in the order of the variables.
        at: List<Row>,
    },
    /// A call of the database failed.
    Base(BaseFault),
    /// No memory was left.
    OutOfMemory,
}

impl From<BaseFault> for QueryFault {
    ghost from_gives = { λ error fault. fault ≡ OfBase error };

    fn from(error: BaseFault) -> QueryFault {
        QueryFault::Base(error)
    }
}

impl From<OutOfMemory> for QueryFault {
    ghost from_gives = { λ _ fault. fault ≡ NoMemory };

    fn from(_error: OutOfMemory) -> QueryFault {
        QueryFault::OutOfMemory
    }
}

impl From<ProductFault> for QueryFault {
    ghost from_gives = { λ error fault. fault ≡ given_fault error };

    fn from(error: ProductFault) -> QueryFault {
        match error {
            ProductFault::NoValue { at } => QueryFault::NoValue { at },
            ProductFault::OutOfMemory => QueryFault::OutOfMemory,
        }
    }
}
