//! Why a stage's process ended early.

ghost use Rattle.std.specs.Prelude.{◌≡◌};
ghost use Rattle.net_core.specs.LoopFaults.{status_of, work_status};
ghost use Rattle.net_core.specs.declared.loop_fault.LoopFault.TheVariants.{OutOfMemory as no_memory_to_go_on};

use crate::WorkFault;
use memory::OutOfMemory;
use thiserror::Error;

/// Why a stage's process ended early. Places count from 0, from the first byte of the stream.
#[derive(Clone, Copy, Debug, Error, PartialEq, Eq)]
pub enum LoopFault {
    /// Its work came to no end.
    #[error("{0}")]
    Work(WorkFault),
    /// The stream from the left can't be read.
    #[error("what comes from the left can't be read")]
    LeftRead,
    /// The stream to the left can't be written, or takes nothing.
    #[error("what goes to the left can't be written")]
    LeftWrite,
    /// The process to the right can't be read, or can't be written to.
    #[error("the process to the right failed")]
    Right,
    /// A stream ended where a frame of it was wanted.
    #[error("a stream ended where a frame was wanted")]
    EndedEarly,
    /// No more steps or bytes can be counted.
    #[error("too many steps or bytes")]
    Spent,
    /// What stands at this place of a stream is no frame, or one that may not come there.
    #[error("the frame at {at} may not come there")]
    BadFrame {
        /// The place.
        at: u64,
    },
    /// The process to the right told that it failed, with this status.
    #[error("the process to the right failed with status {0}")]
    Told(u8),
    /// No memory was left.
    #[error("out of memory")]
    OutOfMemory,
}

impl From<OutOfMemory> for LoopFault {
    ghost from_gives = { λ _ fault. fault ≡ no_memory_to_go_on };

    fn from(_: OutOfMemory) -> LoopFault {
        LoopFault::OutOfMemory
    }
}

/// The status of a process whose work came to no end.
fn work_status(fault: WorkFault) -> u8
    ensures { result ≡ work_status fault }
{
    match fault {
        WorkFault::Damaged { .. } => 2,
        WorkFault::Source => 3,
        WorkFault::Sink => 4,
        WorkFault::Disk => 5,
        WorkFault::OutOfMemory => 6,
        WorkFault::TooLong => 7,
        WorkFault::Unlawful => 10,
        WorkFault::Shelf => 11,
    }
}

impl LoopFault {
    /// The status of a process that ended so.
    pub fn status(&self) -> u8
        ensures { result ≡ status_of self.now }
    {
        match *self {
            LoopFault::Work(fault) => work_status(fault),
            LoopFault::LeftRead => 3,
            LoopFault::LeftWrite => 4,
            LoopFault::OutOfMemory => 6,
            LoopFault::Right | LoopFault::EndedEarly | LoopFault::Spent => 9,
            LoopFault::BadFrame { .. } => 10,
            LoopFault::Told(status) => status,
        }
    }
}
