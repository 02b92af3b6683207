//! Why a product gives no answer.

ghost use Rattle.std.specs.Prelude.{◌≡◌};
ghost use Rattle.ovqp.specs.declared.product_fault.ProductFault.TheVariants.{OutOfMemory as NoMemory};

use calculus::{List, OutOfMemory, Row};

/// Why a product gives no answer.
#[derive(PartialEq, Eq, Drop)]
pub enum ProductFault {
    /// A target has no value in an assignment in which the qualification holds.
    NoValue {
        /// The rows of the variables in that assignment, in the order of the variables.
        at: List<Row>,
    },
    /// No memory was left.
    OutOfMemory,
}

impl From<OutOfMemory> for ProductFault {
    ghost from_gives = { λ _ fault. fault ≡ NoMemory };

    fn from(_error: OutOfMemory) -> ProductFault {
        ProductFault::OutOfMemory
    }
}
