//! What the utilities plan, and what a copy from a file appends, are lawful changes of a database. Each
//! function here is a law with no body: its clause speaks of the definitions alone.
#![tactic(auto)]

mod copies;
mod fit_plans;
mod permits;
mod relations;
mod rows;
mod structures;
mod views;

pub use copies::a_copy_from_a_file_is_lawful;
pub use fit_plans::a_fit_plan_is_lawful;
pub use permits::{dropping_permits_and_rules_is_lawful, new_permits_and_rules_are_lawful};
pub use relations::{a_new_relation_is_lawful, destroying_is_lawful};
pub use rows::another_set_of_rows_is_lawful;
pub use structures::{a_new_index_is_lawful, another_structure_is_lawful};
pub use views::a_new_view_is_lawful;
