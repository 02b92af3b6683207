//! The change that the pairs of an update make of a database.
#![tactic(auto)]

mod apart;
mod change;
mod contention;
mod fault;
mod limit;
mod moved;
mod moves;
mod new_relation;
mod pair_rows;
mod pairs_fault;
mod pairs_rows;
mod present;
mod replacements;
mod update;

pub use apart::rows_of_pairs;
pub use calculus::{Change, Pair, Row, RowSet};
pub use change::change_of;
pub use fault::UpdateFault;
pub use moves::without;
pub use pairs_fault::ChangeFault;
pub use update::set_replace;
