//! Frames: a kind, a length and a payload each, in a stream of bytes that is cut anywhere.
#![tactic(auto)]

mod fault;
mod frame;
mod fronts;
mod laws;
mod message;
mod reader;
mod taking;

pub use fault::FrameFault;
pub use frame::{Frame, frame_bytes};
pub use laws::{
    messages_are_joined, messages_are_spelled_apart, pieces_are_read_as_the_whole,
    what_is_written_is_read,
};
pub use message::{Message, MessageFrames, MessageJoiner};
pub use reader::FrameReader;
