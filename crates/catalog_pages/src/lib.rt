//! Rows of the three catalogues go and come on their pages.
#![tactic(auto)]

mod writing;

pub use writing::{Ends, write_moves};
