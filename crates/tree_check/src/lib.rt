//! Whether a tree is fit for a user and a database.
#![tactic(auto)]

mod asking;
mod columns;
mod queries;
mod reading;
mod relations;
mod slots;
mod sources;
mod standing;
mod target_attributes;
mod tree;
mod updates;
mod utilities;
mod views;

pub use tree::fit_tree;
