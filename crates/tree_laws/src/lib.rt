//! What trees mean in which views and permits were put in, and that they are fit. Each function here is a
//! law with no body: its clause speaks of the definitions alone.
#![tactic(auto)]

mod answers;
mod expansions;
mod fitness;
mod levels;
mod meaning;
mod slots;
mod updates;

pub use answers::what_is_put_in_answers_the_same;
pub use expansions::{an_expansion_denotes_its_rows, expansions_name_what_is_kept};
pub use fitness::{expansions_of_what_is_there_fit, what_is_put_in_is_fit};
pub use levels::what_is_put_in_has_few_levels;
pub use meaning::what_is_put_in_means_the_same;
pub use slots::aggregates_stand_at_their_slots;
pub use updates::{rules_join_what_is_put_in, what_is_put_in_changes_the_same};
