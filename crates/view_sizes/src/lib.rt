//! How large queries and views are once the views in them are expanded.
#![tactic(auto)]

mod depths;
mod expanded;
mod measures;
mod ranges;
mod remembered;
mod sizes;
mod variables;

pub use depths::{qual_depth, query_depth, term_depth};
pub use expanded::{expanded_variables, listed_expanded_variables, update_expanded_variables};
pub use measures::{measure_of, query_size, used_count};
pub use ranges::{are_ranges, has_high_level, have_levels, is_range};
pub use sizes::{Measure, qual_size, term_size};
pub use variables::{variables_of, variables_under, variables_within};
