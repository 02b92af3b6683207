//! The terminal monitor: the bytes of replies, the query buffer, the parts of a line, and the first stage, which reads a
//! script line by line and prints what comes back.
#![tactic(auto)]

mod at;
mod buffer;
mod bytes;
mod cells;
mod command;
mod due;
mod event;
mod first;
mod line;
mod lines;
mod open_files;
mod parts;
mod printing;
mod reader;
mod refusals;
mod replies;
mod settling;
mod tables;
mod texts;
mod working;

pub use buffer::Buffer;
pub use command::Command;
pub use first::Monitor;
pub use line::{Part, parts_of};
pub use refusals::refusal_bytes;
pub use replies::{done_bytes, push_reply, reply_bytes};
pub use tables::{head_bytes, push_head, push_row_line, push_rule, row_line, rule_bytes};
