//! The structures that a file of rows may have.
#![tactic(auto)]

mod method;

pub use method::{Method, open_method};
