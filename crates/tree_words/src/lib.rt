//! The words that spellings of trees as bytes are put together from, and what reads and writes by them.
#![tactic(auto)]

mod fault;
mod fields;
mod lists;
mod numbers;
mod reader;
mod short;
mod spelling;
mod whole;

pub use fault::Fault;
pub use fields::{
    fields2, fields3, fields4, fields5, fields6, fields7, variant0, variant1, variant2, variant3,
    variant4, variant5, variant6, variant7,
};
pub use lists::{Many32, write_many16, write_many32};
pub use reader::Reader;
pub use short::{Shape, short_bytes, write_short};
pub use spelling::{ByteIf, ByteTest, SomeBytes, Spelled, Spelling};
pub use whole::{read_whole, write_whole};
