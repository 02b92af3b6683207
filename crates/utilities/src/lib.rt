//! What the utilities make of a database, as changes of it.
#![tactic(auto)]

mod destroying;
mod dropping;
mod fault;
mod listed;
mod meeting;
mod numbering;
mod owners;
mod permits;
mod planning;
mod rules;
mod structures;
mod views;

pub use fault::UtilFault;
pub use owners::owner_refusal;
pub use planning::plan;
