//! Chains of pages of rows, the rows as bytes.
#![tactic(auto)]

mod chains;
mod filling;
mod going;
mod growing;
mod passing;
mod renewing;
mod replacing;
mod taking;

pub use chains::{ChainRows, chain_page, chain_rows};
pub use going::GoingRows;
pub use growing::{build, extend, put_one};
pub use renewing::{PageChange, renew_page};
pub use replacing::{Chain, Replacement, replace, take_one};
