//! A base for tests that answers by what it was given, of which no database is known.
#![tactic(auto)]

mod base;
mod given;

pub use base::TestBase;
