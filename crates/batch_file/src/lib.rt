//! A batch of pages that is applied to a disk as one: all of them, or none.
#![tactic(auto)]

mod applying;
mod check;
mod committing;
mod fault;
mod layout;
mod redo;
mod restoring;
mod stage;

pub use committing::commit;
pub use fault::{RestoreFault, Restored};
pub use restoring::restore;
pub use stage::Batch;
