//! The expansion of what a variable ranges over, and terms and qualifications with other terms put in.
#![tactic(auto)]

mod expansion;
mod expansion_conditions;
mod halves;
mod permit;
mod put;
mod putting;
mod replaced;
mod rows;
mod settled;
mod shifted;
mod tree_parts;

pub use expansion::Expansion;
pub use expansion_conditions::conditions;
pub use halves::{all_of, any_of};
pub use permit::permit_condition;
pub use put::{substituted_qual, substituted_term};
pub use rows::{rows_expansion, substituted_rows, substituted_whole};
pub use shifted::{shifted_qual, shifted_term};
