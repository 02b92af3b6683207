//! The catalogue of a database on disk, in memory.
#![tactic(auto)]

mod applying;
mod asking;
mod catalog;
mod files;
mod filling;
mod keeping;
mod loading;
mod lying;
mod placing;
mod spelling;
mod spots;

pub use catalog::Catalog;
pub use lying::what_lies_is_known;
pub use spots::SpotTable;
