//! Want of memory as an error, the list that contracts see as its items, and the box that they see as its value.
#![tactic(auto)]

mod boxed;
mod list;
mod lists;
mod out_of_memory;
mod pairs;
mod try_copy;

pub use boxed::Boxed;
pub use list::List;
pub use lists::{alone, push};
pub use out_of_memory::OutOfMemory;
pub use pairs::both;
pub use try_copy::{TryCopy, copies};
