//! The rows of a relation's file as a set: all of them read, some changed, and a file made with them.
#![tactic(auto)]

mod file_rows;
mod reading;
mod spots;
mod unseen;

pub use file_rows::{build_rows, change_rows};
pub use reading::relation_rows;
pub use spots::RowSpots;
