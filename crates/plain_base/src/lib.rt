//! A database in memory: its lists as they are, told to contracts whole.
#![tactic(auto)]

mod catalogue;
mod catalogue_rows;
mod db_lists;
mod db_plain;
mod leaving;
mod look_up;
mod near;
mod one_relation;
mod ordered;
mod rows;
mod scanning;
mod under_keys;

pub(crate) use db_lists::DbLists;
pub use db_plain::DbPlain;
