//! What a script means: which tree a statement is, what it does, what is printed, and what a session is.
#![tactic(auto)]

mod checking_laws;
mod copy_laws;
mod laws;
mod plan_laws;
mod resolving_laws;
mod session_laws;
mod step_laws;

pub use checking_laws::{statements_do_what_they_ask_for, what_is_checked_is_permitted};
pub use copy_laws::a_copy_is_read_back;
pub use laws::{
    a_refusal_changes_nothing, a_shelf_keeps_files, a_table_is_the_answer_in_order,
    range_declares_a_variable, what_asks_changes_nothing,
};
pub use plan_laws::{a_new_number_is_greater, listed_numbers_ascend};
pub use resolving_laws::{
    fit_trees_speak_little_of_views_and_users, listed_variables_are_used,
    only_its_numbers_refuse_a_statement, slots_count_the_aggregates_of_a_text,
    trees_are_for_what_statements_are_for, what_is_resolved_is_fit,
};
pub use session_laws::{
    a_batch_is_read_to_its_end, a_line_is_cut_at_its_first_command, all_output_ends_the_last_reply,
    equal_readings_give_equal_sessions, lines_are_the_script, lines_follow_lines,
    nothing_happens_behind_the_end, only_statements_change_the_database,
};
pub use step_laws::{
    a_batch_is_worked_off_statement_by_statement, a_line_is_worked_off_command_by_command,
    an_included_file_is_the_innermost, lines_come_from_the_innermost_file,
};
