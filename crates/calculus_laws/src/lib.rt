//! Laws of tuple calculus, which show that the definitions of the calculus are the right ones. Each
//! function here is a law with no body: its clause speaks of the definitions alone.
#![tactic(auto)]

mod answers;
mod detaching;
mod expansion;
mod levels;
mod patterns;
mod reading;
mod rights;
mod updates;
mod views;

pub use answers::{an_answer_has_what_is_asked_for, assignments_have_a_row_for_each_variable};
pub use detaching::{
    a_condition_is_detached, a_lack_is_detached, an_answer_is_detached, an_update_is_detached,
    and_asks_for_both,
};
pub use expansion::a_view_is_its_text;
pub use levels::{
    its_own_level_is_enough, more_levels_change_nothing, more_levels_change_nothing_in_a_database,
};
pub use patterns::a_text_matches_where_the_relation_holds;
pub use reading::{the_schema_decides, what_is_read_decides, what_is_read_is_kept};
pub use rights::{nobody_sees_more_than_is_there, what_is_not_permitted_is_not_used};
pub use updates::{
    a_set_stays_a_set, no_pair_changes_nothing, old_in_no_pair_stays, what_stands_after,
};
pub use views::a_view_has_the_answer_of_its_query;
