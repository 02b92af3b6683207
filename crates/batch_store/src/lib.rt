//! A store of pages over a disk, whose changes go into a batch on that disk as they come.
#![tactic(auto)]

mod laws;
mod opening;
mod reading;
mod staging;
mod store;
mod stored;

pub use store::BatchStore;
