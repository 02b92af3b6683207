//! Faults of the database, as those of a piece of work.

ghost use Rattle.std.specs.Prelude.{◌≡◌};
ghost use Rattle.stage_util.specs.Working.{of_base};

use base_trait::BaseFault;
use net_core::WorkFault;

/// The fault of a call of the database, as one of a piece of work.
pub(crate) fn of_base(fault: BaseFault) -> WorkFault
    ensures { result ≡ of_base fault }
{
    match fault {
        BaseFault::Disk => WorkFault::Disk,
        BaseFault::Damaged { file, page } => WorkFault::Damaged { file, page },
        BaseFault::OutOfMemory => WorkFault::OutOfMemory,
    }
}
