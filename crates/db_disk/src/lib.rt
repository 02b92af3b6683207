//! A database on a disk.
#![tactic(auto)]

mod answering;
mod applying;
mod asked;
mod asked_rows;
mod at_once;
mod base;
mod create;
mod fault;
mod filling;
mod head;
mod header;
mod load;
mod opening;
mod page_changes;
mod questions;
mod reopened;
mod row_questions;

pub use at_once::{OpenFault, Unopened};
pub use base::DbDisk;
pub use create::create_db;
pub use fault::CreateFault;
pub use head::header_name;
