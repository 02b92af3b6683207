//! The answer of a query of one variable, by one scan; the rows that a database keeps under a key and the
//! kinds of their attributes, why a query gives no answer, and whether a query uses a variable.
#![tactic(auto)]

mod aggregates;
mod answer;
mod answering;
mod attributes;
mod fault;
mod given;
mod giving;
mod kinds;
mod product_fault;
mod scanned;
mod scanning;
mod used;
mod walk;

pub use aggregates::aggregates_of;
pub use answer::{answer_over, has_no_choices};
pub use answering::one_variable;
pub use attributes::uses;
pub use calculus::OutOfMemory;
pub use fault::QueryFault;
pub use given::target_row;
pub use kinds::{kinds_at, source_kinds, target_kinds};
pub use product_fault::ProductFault;
pub use scanned::rows_of;
pub use used::{is_place_used, is_used, names_in_qual, target_names};
