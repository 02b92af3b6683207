ghost use Rattle.std.specs.Prelude.{◌≡◌};
ghost use Rattle.frame_codec.specs.declared.fault.FrameFault.TheVariants.{OutOfMemory as no_memory};

use memory::OutOfMemory;
use thiserror::Error;

/// Why a piece of a stream wasn't read to its end. Places count from 0, from the stream's first byte.
#[derive(Clone, Copy, Debug, PartialEq, Eq, Error)]
pub enum FrameFault {
    /// A frame begins with a byte that is no kind.
    #[error("the byte at {at} is no kind of frame")]
    BadKind {
        /// The place of that byte.
        at: u64,
    },
    /// A frame has a length that its kind doesn't have.
    #[error("the frame whose length stands at {at} may not have it")]
    TooLong {
        /// The place of the length's first byte.
        at: u64,
    },
    /// Want of memory.
    #[error("out of memory")]
    OutOfMemory,
}

impl From<OutOfMemory> for FrameFault {
    ghost from_gives = { λ _ e. e ≡ no_memory };

    fn from(_e: OutOfMemory) -> FrameFault {
        FrameFault::OutOfMemory
    }
}
