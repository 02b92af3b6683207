//! The utilities as stage 4: they carry out changes, and work that a user asks the utilities for.
#![tactic(auto)]

mod at;
mod carried;
mod carrying;
mod copying;
mod faults;
mod fourth;
mod laying;
mod planning;

pub use at::At;
pub use fourth::Utilities;
