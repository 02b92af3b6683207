//! What refuses a statement whose names were found.
#![tactic(auto)]

mod aggregates;
mod allowed_aggregates;
mod changed;
mod counted;
mod created;
mod fitting;
mod kinds;
mod numbered;
mod places;
mod refusing;
mod repeated;
mod restricted;
mod retrieved;
mod terms;
mod viewed;
mod widths;

pub use allowed_aggregates::aggregates_allowed;
pub use changed::relation_refusal;
pub use counted::has_too_many;
pub use fitting::{assignments_fit, has_kind, query_fits, same_kind, targets_fit};
pub use kinds::var_kinds;
pub use numbered::{existing_permits, existing_rules};
pub use places::{is_catalogue_name, is_full, is_taken};
pub use refusing::find_refusal;
pub use repeated::{repeats, sorts_by_titles};
pub use restricted::{qual_is_small, valid_row_qual};
pub use terms::{kind_in_query, kinds_fit_in_query};
pub use widths::{is_too_wide, kind_bytes, made_kinds};
