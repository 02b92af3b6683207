//! What pages are kept in, and what a file of rows offers.
#![tactic(auto)]

mod fault;
mod method;
mod store;

pub use calculus::RelFile;
pub use fault::StoreFault;
pub use method::AccessMethod;
pub use store::PageStore;
