//! Cuts a tree down to what a user may see and change, with the views in it expanded, and puts the rules of
//! the relation that is changed among the checks of an update.
#![tactic(auto)]

mod aggregates;
mod attributes;
mod changed_variable;
mod cutting;
mod expanded;
mod expanding;
mod expansions;
mod fault;
mod rules;
mod sources;
mod updates;

pub use cutting::cut_permits;
pub use expanding::expand;
pub use fault::{CutFault, ExpandFault, NO_VARIABLE};
pub use rules::add_rules;
