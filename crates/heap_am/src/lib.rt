//! A heap: a file of rows that lie on one chain of pages, in no order.
#![tactic(auto)]

mod encoding;
mod fitting;
mod heap;
mod lines;
mod method;
mod near;
mod pages;
mod row_changes;
mod scanning;
mod whole_pages;

pub use heap::Heap;
