//! Whether a database may take a change.
#![tactic(auto)]

mod attributes;
mod checking;
mod described;
mod destroying;
mod indexes;
mod keys;
mod numbers;
mod permits;
mod relations;
mod rows;
mod structures;
mod views;

pub use checking::fit_change;
pub use described::{attrs_stand, is_kind, keys_stand, places_differ, some_keys_stand};
pub use destroying::{keys_differ, same_key};
pub use keys::is_relation;
pub use permits::{are_places, attrs_are_places, row_qual_is_fit};
pub use relations::relation_attrs_stand;
pub use views::{valid_query, view_query_is_fit};
