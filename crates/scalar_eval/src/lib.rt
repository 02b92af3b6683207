//! The value of a term, the truth of a qualification, and the matching of a text with a pattern.
#![tactic(auto)]

mod assigned;
mod class;
mod constant;
mod laws;
mod number;
mod pattern;
mod truth;
mod values;

pub use assigned::Assigned;
pub use calculus::OutOfMemory;
pub use laws::{matches_are_by_the_relation, tables_stand_for_aggregates};
pub use pattern::like;
pub use truth::holds;
pub use values::value_of;
