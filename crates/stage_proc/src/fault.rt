//! Why an update gives no pairs.

ghost use Rattle.std.specs.Prelude.{◌≡◌};
ghost use Rattle.ovqp.specs.declared.fault.QueryFault.TheVariants.{Base as OfBase};
ghost use Rattle.ovqp.specs.Given.{given_fault};
ghost use Rattle.stage_proc.specs.declared.fault.PairFault.TheVariants.{Query as OfQuery, OutOfMemory as NoMemory};

use base_trait::BaseFault;
use calculus::{OutOfMemory, Row};
use decompose::QueryFault;
use ovqp::ProductFault;

/// Why an update gives no pairs.
#[derive(PartialEq, Eq, Drop)]
pub enum PairFault {
    /// A value isn't of the kind of its attribute.
    NotFit {
        /// The first new row with such a value.
        row: Row,
    },
    /// The query of the update gives no answer.
    Query(QueryFault),
    /// No memory was left.
    OutOfMemory,
}

impl From<BaseFault> for PairFault {
    ghost from_gives = { λ error fault. fault ≡ OfQuery (OfBase error) };

    fn from(error: BaseFault) -> PairFault {
        PairFault::Query(QueryFault::Base(error))
    }
}

impl From<OutOfMemory> for PairFault {
    ghost from_gives = { λ _ fault. fault ≡ NoMemory };

    fn from(_error: OutOfMemory) -> PairFault {
        PairFault::OutOfMemory
    }
}

impl From<ProductFault> for PairFault {
    ghost from_gives = { λ error fault. fault ≡ OfQuery (given_fault error) };

    fn from(error: ProductFault) -> PairFault {
        match error {
            ProductFault::NoValue { at } => PairFault::Query(QueryFault::NoValue { at }),
            ProductFault::OutOfMemory => PairFault::Query(QueryFault::OutOfMemory),
        }
    }
}
