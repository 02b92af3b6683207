//! Which database the pages of a disk stand for. Each function here is a law with no body: its clause
//! speaks of the definitions alone.
#![tactic(auto)]

mod bytes;
mod catalogues;
mod deciding;
mod denoting;
mod examples;
mod laws;
mod printing;

pub use bytes::{
    columns_are_their_bytes, entries_are_their_bytes, parts_are_their_bytes, trees_are_their_bytes,
};
pub use catalogues::{
    catalogues_are_read, what_is_listed, what_is_printed_is_a_catalogue, what_is_read_is_printed,
};
pub use deciding::the_test_decides_a_database;
pub use denoting::{
    fresh_pages_stand, headers_are_their_bytes, one_database, only_kept_pages_count,
    pages_stand_exactly, same_redone, same_where_kept, shut_disks_hold,
    what_is_denoted_is_a_database,
};
pub use examples::{
    pages_stand_for_a_long_view, pages_stand_for_permits, pages_stand_for_two_heaps,
};
pub use laws::{
    another_file_renumbers_the_catalogue, each_change_changes_the_catalogue, files_differ_again,
    what_goes_is_there_and_what_comes_is_new, what_is_renumbered_is_there_and_comes_anew,
};
pub use printing::a_printed_catalogue_is_read;
