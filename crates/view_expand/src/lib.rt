//! The expansions of what variables range over, found in a database.
#![tactic(auto)]

mod covering;
mod expanded;
mod expansions;
mod fault;
mod found;
mod needs;
mod plain;
mod right;
mod row_restriction;
mod walk;

pub use calculus::OutOfMemory;
pub use expanded::expanded_plain;
pub use expansions::expansion_within;
pub use fault::ExpansionFault;
pub use found::ExpansionsFound;
pub use right::Right;
pub use row_restriction::restriction;
pub use walk::expansion_at;
