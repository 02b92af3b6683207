//! What is read of a text is a statement of the language's forms. Each function here is a law with no
//! body: its clause speaks of the definitions alone.
#![tactic(auto)]

mod copied;
mod shallow;
mod written;

pub use copied::a_copied_file_is_read_record_by_record;
pub use shallow::{what_is_asked_for_is_as_shallow, what_is_read_is_shallow};
pub use written::what_is_read_is_written;
