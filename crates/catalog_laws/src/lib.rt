//! Laws that a catalog in memory rests on: what a database is of which some rows were read, what a catalogue
//! says where none were, and what a lawful change leaves on the pages. Each function here is a law with no
//! body: its clause speaks of the definitions alone.
#![tactic(auto)]

mod applying;
mod database_parts;
mod part_changes;
mod unread;

pub use applying::{the_catalogue_follows, what_a_change_leaves};
pub use database_parts::{a_part_has_the_rows, a_part_is_a_database};
pub use part_changes::{a_part_takes_changes, a_part_takes_rows};
pub use unread::{empty_pages_are_there, parts_are_spelled, what_is_spelled_has_one_schema};
