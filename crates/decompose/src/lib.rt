//! The answer of a query over the rows that a database keeps.
#![tactic(auto)]

mod answers;
mod conditions;
mod laws;
mod left;
mod sets;
mod used;

pub use answers::answer;
pub use calculus::OutOfMemory;
pub use laws::no_aggregates_need_no_tables;
pub use left::rows_passing;
pub use ovqp::{QueryFault, rows_of};
pub use sets::rows_of_variable;
pub use used::is_used_at;
