//! Which name refuses a statement, and what its variables range over.
#![tactic(auto)]

mod entry;
mod head;
mod infos;
mod looking;
mod meant;
mod mention;
mod mentioned;
mod refusal;
mod role;
mod targets;
mod text;
mod titles;

pub use base_trait::BaseFault;
pub use infos::{
    infos_of, inner_variables_range_where_no_name_refuses, variables_range_where_no_name_refuses,
};
pub use looking::{info_at, named, ranged};
pub use refusal::name_refusal;
