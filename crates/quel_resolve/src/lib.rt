//! What statements ask for: their trees, or the numbers of what refuses them.
#![tactic(auto)]

mod kinds;
mod known;
mod pairs;
mod places;
mod queries;
mod refusing;
mod resolving;
mod sorting;
mod statement_updates;
mod stored;
mod target_list;
mod targets;
mod trees;
mod updates;
mod written_queries;
mod written_trees;

pub use resolving::resolve;
pub use updates::{append_of, delete_of, into_of, replace_of};
pub use utility_trees::CheckFault;
pub use written_queries::query_of;
pub use written_trees::tree_by;
