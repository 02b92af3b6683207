//! Why a stage couldn't take a frame, or work.

ghost use Rattle.std.specs.Prelude.{◌≡◌};
ghost use Rattle.net_core.specs.Faults.{of_taking};
ghost use Rattle.net_core.specs.declared.fault.TakeFault.TheVariants.{OutOfMemory as no_memory_to_take};
ghost use Rattle.net_core.specs.declared.fault.WorkFault.TheVariants.{OutOfMemory as no_memory_to_work};

use memory::OutOfMemory;
use std::alloc::AllocError;
use thiserror::Error;

/// Why a frame was not taken. The stage is as it was.
#[derive(Clone, Copy, Debug, Error, PartialEq, Eq)]
pub enum TakeFault {
    /// The frame is not one that may come to the stage at this point.
    #[error("a frame that may not come here")]
    Unlawful,
    /// No memory was left.
    #[error("out of memory")]
    OutOfMemory,
}

/// Why a piece of work, or a step of the network, came to no end.
#[derive(Clone, Copy, Debug, Error, PartialEq, Eq)]
pub enum WorkFault {
    /// The source of the script failed.
    #[error("the script can't be read")]
    Source,
    /// The sink failed, or took no byte of a piece that isn't empty.
    #[error("the output can't be written")]
    Sink,
    /// The disk failed.
    #[error("the disk failed")]
    Disk,
    /// A page isn't of its form.
    #[error("page {page} of file {file} is damaged")]
    Damaged {
        /// The file's number.
        file: u32,
        /// The page's number in its file, from 0.
        page: u32,
    },
    /// The shelf failed.
    #[error("a file can't be read or stored")]
    Shelf,
    /// The script is longer than it may be.
    #[error("the script is too long")]
    TooLong,
    /// A frame that may not come, or a tree or a change that isn't fit for the present database.
    #[error("a message that may not come here")]
    Unlawful,
    /// No memory was left.
    #[error("out of memory")]
    OutOfMemory,
}

impl From<OutOfMemory> for TakeFault {
    ghost from_gives = { λ _ fault. fault ≡ no_memory_to_take };

    fn from(_: OutOfMemory) -> TakeFault {
        TakeFault::OutOfMemory
    }
}

impl From<OutOfMemory> for WorkFault {
    ghost from_gives = { λ _ fault. fault ≡ no_memory_to_work };

    fn from(_: OutOfMemory) -> WorkFault {
        WorkFault::OutOfMemory
    }
}

impl From<AllocError> for WorkFault {
    ghost from_gives = { λ _ fault. fault ≡ no_memory_to_work };

    fn from(_: AllocError) -> WorkFault {
        WorkFault::OutOfMemory
    }
}

impl From<TakeFault> for WorkFault {
    ghost from_gives = { λ taking fault. fault ≡ of_taking taking };

    fn from(fault: TakeFault) -> WorkFault {
        match fault {
            TakeFault::Unlawful => WorkFault::Unlawful,
            TakeFault::OutOfMemory => WorkFault::OutOfMemory,
        }
    }
}
