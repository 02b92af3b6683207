//! What statements ask for that need no query: to destroy, to give a structure, to make an index, to
//! print, to ask for help, to copy.
#![tactic(auto)]

mod asked;
mod copied;
mod destroyed;
mod fault;
mod finding;
mod helped;
mod keys;
mod lists;
mod places;
mod printed;
mod repeated;
mod stored;
mod without_query;

pub use fault::CheckFault;
pub use without_query::{needs_no_query, tree_without_query};
