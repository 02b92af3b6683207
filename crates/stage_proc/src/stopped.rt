//! Why nothing is made of a tree.

ghost use Rattle.std.specs.Prelude.{◌≡◌};
ghost use Rattle.stage_proc.specs.Stopping.{change_stop, of_base, pair_stop, query_stop};

use crate::PairFault;
use base_trait::BaseFault;
use calculus::refusals::{CONTENDED, NO_VALUE, NOT_FIT, TOO_MANY_ROWS};
use decompose::QueryFault;
use net_core::WorkFault;
use update_change::UpdateFault;

/// Why nothing is made of a tree.
#[derive(Clone, Copy)]
pub enum Stopped {
    /// The number of what refuses it.
    No(u8),
    /// A call of the database failed.
    Base(BaseFault),
    /// No memory was left.
    OutOfMemory,
}

impl From<QueryFault> for Stopped {
    ghost from_gives = { λ fault stopped. stopped ≡ query_stop fault };

    fn from(fault: QueryFault) -> Stopped {
        match fault {
            QueryFault::NoValue { at: _ } => Stopped::No(NO_VALUE),
            QueryFault::Base(fault) => Stopped::Base(fault),
            QueryFault::OutOfMemory => Stopped::OutOfMemory,
        }
    }
}

impl From<PairFault> for Stopped {
    ghost from_gives = { λ fault stopped. stopped ≡ pair_stop fault };

    fn from(fault: PairFault) -> Stopped {
        match fault {
            PairFault::NotFit { row: _ } => Stopped::No(NOT_FIT),
            PairFault::Query(fault) => Stopped::from(fault),
            PairFault::OutOfMemory => Stopped::OutOfMemory,
        }
    }
}

impl From<UpdateFault> for Stopped {
    ghost from_gives = { λ fault stopped. stopped ≡ change_stop fault };

    fn from(fault: UpdateFault) -> Stopped {
        match fault {
            UpdateFault::Contended {
                old: _,
                first: _,
                second: _,
            } => Stopped::No(CONTENDED),
            UpdateFault::TooMany { rows: _ } => Stopped::No(TOO_MANY_ROWS),
            UpdateFault::Base(fault) => Stopped::Base(fault),
            UpdateFault::OutOfMemory => Stopped::OutOfMemory,
        }
    }
}

/// The fault of a call of the database, as one of a piece of work.
pub(crate) fn of_base(fault: BaseFault) -> WorkFault
    ensures { result ≡ of_base fault }
{
    match fault {
        BaseFault::Disk => WorkFault::Disk,
        BaseFault::Damaged { file, page } => WorkFault::Damaged { file, page },
        BaseFault::OutOfMemory => WorkFault::OutOfMemory,
    }
}
