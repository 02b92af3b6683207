//! What the stages tell one another: messages from bytes and to bytes, from frames and to frames.
#![tactic(auto)]

mod bare;
mod gathered;
mod laws;
mod messages;
mod outgoing;
mod refusals;
mod values;

pub use bare::{done_message, end_message, quit_message, text_message};
pub use gathered::{Came, Gathered};
pub use laws::{frames_are_taken_as_messages, messages_are_their_bytes};
pub use messages::{StageMessage, message_of};
pub use outgoing::Outgoing;
pub use refusals::{RefusalTree, refusal_message};
pub use values::again;
