//! The tables of a query's aggregates: what each gives for each group of its source's rows.
#![tactic(auto)]

mod averaging;
mod different;
mod folding;
mod grouping;
mod kinds;
mod members;
mod number;
mod settling;
mod sources;
mod summing;

pub use calculus::OutOfMemory;
pub use folding::fold_values;
pub use settling::settle;
