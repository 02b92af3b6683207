//! A frame and its bytes.

ghost use Rattle.std.specs.Prelude.{◌≡◌, IfOk, IsTrue};
ghost use Rattle.frame_codec.specs.Frames.{frame_bytes, is_lawful};

use memory::{List, OutOfMemory};
use std::alloc::Global;

/// How many bytes stand before a frame's payload.
pub(crate) const HEADER: usize = 3;

/// The kind of a frame that is full, and behind which its message goes on.
pub(crate) const MORE: u8 = 11;

/// The length of a frame behind which its message goes on; every other frame is shorter.
pub(crate) const FULL: usize = 4096;

/// One frame of a stream: its kind, 1 to 11, and its payload.
#[derive(Drop)]
pub struct Frame {
    /// Its kind.
    pub kind: u8,
    /// Its payload.
    pub payload: List<u8>,
}

/// The bytes of a frame: its kind, its length as two bytes, the higher first, and its payload.
pub fn frame_bytes(alloc: Global, frame: &Frame) -> Result<Vec<u8>, OutOfMemory>
    requires { IsTrue (is_lawful frame.now) }
    ensures { IfOk result (λ bytes. bytes.items ≡ frame_bytes frame.now) }
{
    let payload = frame.payload.items();
    let size = payload.len();
    let mut bytes = Vec::with_capacity(alloc, HEADER + size)?;
    bytes.extend_from_slice(&[frame.kind, (size / 256) as u8, (size % 256) as u8])?;
    bytes.extend_from_slice(payload)?;
    Ok(bytes)
}
