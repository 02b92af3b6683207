//! What a database offers to those that ask and change it, whatever it is kept in.
#![tactic(auto)]

mod base;
mod fault;

pub use base::Base;
pub use fault::BaseFault;
