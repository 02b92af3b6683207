//! The query processor: the tables of queries, the pairs of old and new rows that an update makes, and the
//! third stage, which has both made of the trees that come to it.
#![tactic(auto)]

mod at;
mod attributes;
mod columns;
mod fault;
mod fitting;
mod given;
mod held;
mod kinds;
mod new_row;
mod order;
mod over;
mod pair;
mod pairs;
mod planning;
mod processed;
mod processing;
mod processor;
mod sending;
mod sets;
mod sorting;
mod standing;
mod stopped;
mod suiting;
mod tables;
mod taking;
mod walk;
mod working;

pub use calculus::OutOfMemory;
pub use decompose::QueryFault;
pub use fault::PairFault;
pub use kinds::NewKinds;
pub use order::rows_order;
pub use over::pairs_over;
pub use pairs::pairs_of;
pub use processor::Processor;
pub use sorting::sorted;
pub use tables::{table_of, tables_of};
