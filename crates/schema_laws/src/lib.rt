//! Laws of schemas: what is said of a database without looking at its rows is said of its schema. Each
//! function here is a law with no body: its clause speaks of the definitions alone.
#![tactic(auto)]

mod checking;
mod finding;
mod lawful;
mod permission;
mod sizes;
mod standing;

pub use checking::what_is_asked_for_is_in_the_schema;
pub use finding::what_is_found_is_in_the_schema;
pub use lawful::a_change_is_lawful_by_schema_and_rows;
pub use permission::what_is_permitted_is_in_the_schema;
pub use sizes::levels_and_sizes_are_in_the_schema;
pub use standing::a_schema_is_a_database;
