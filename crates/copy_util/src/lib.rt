//! Copies rows from files into relations, and from relations into files.
#![tactic(auto)]

mod appending;
mod columns;
mod fault;
mod file_name;
mod forms;
mod from_file;
mod into_file;
mod numbers;
mod pieces;
mod printing;
mod records;
mod rows_read;
mod rows_written;
mod rule_keeping;

pub use fault::CopyFault;
pub use from_file::copy_from;
pub use into_file::copy_into;
