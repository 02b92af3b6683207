//! What an update makes of a database, where it isn't refused, is a lawful change. The laws here are
//! functions with no body: their clauses speak of the definitions alone. Beside them stands the walk that
//! shows of every tree that its constants and names are those of their types.
#![tactic(auto)]

mod constants;
mod trees;
mod updates;
mod values;

pub use constants::{qual_is_spelled, query_is_spelled};
pub use trees::{tree_is_spelled, update_is_spelled, utility_is_spelled};
pub use updates::an_update_is_lawful;
pub use values::the_values_of_terms_are_proper;
