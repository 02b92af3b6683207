//! What is known of names while statements are checked.
#![tactic(auto)]

mod aggregated;
mod inner;
mod inner_trees;
mod known;
mod mentions;
mod names;
mod places;
mod range_table;
mod slots;
mod statement_parts;
mod trees;
mod whole_trees;

pub use aggregated::{has_aggregate, qual_has_aggregate, term_has_aggregate};
pub use inner::{aggregate_vars, inner_vars, text_aggregates};
pub use known::Known;
pub use mentions::{Mention, mentions_in_qual, mentions_in_term};
pub use names::vars_in;
pub use range_table::RangeTable;
pub use slots::slot_behind_item;
pub use statement_parts::{items_of, where_of};
pub use trees::{qual_tree, term_tree, where_tree};
pub use whole_trees::{qual_tree_from, term_tree_from, where_tree_from};
