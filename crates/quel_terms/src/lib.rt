//! Reads terms and qualifications from tokens.
#![tactic(auto)]

mod called;
mod depth;
mod halt;
mod primaries;
mod qualifications;
mod signs;
mod table;
mod taking;
mod terms;

pub use halt::{Halt, Read};
pub use qualifications::qual_by;
pub use table::look_up;
pub use taking::{after, found, name_at, seen_name};
pub use terms::term_by;
