//! Small databases, on which the definitions of the calculus are computed. Each function here is a
//! law with no body: its clause says what the definitions give on an example.
#![tactic(auto)]

mod databases;
mod queries;
mod rights;
mod terms;
mod updates;

pub use databases::{
    changes_leave_lists_in_order, lawful_changes_leave_databases, views_hold_what_they_name,
};
pub use queries::{
    a_view_may_stand_twice, aggregates_fold_different_rows, division_by_zero_has_no_value,
    each_group_is_folded, parts_are_checked_together, views_show_sets,
};
pub use rights::{permits_are_not_joined, permits_restrict_rows};
pub use terms::{texts_match_patterns, values_of_terms};
pub use updates::{
    answers_make_relations, rows_are_a_set, rules_leave_rows_out, updates_are_deferred,
};
