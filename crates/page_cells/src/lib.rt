//! Pages of rows: a page as its slots, its room and its next page, and the bytes of a row.
#![tactic(auto)]

mod check;
mod number;
mod page;
mod putting;
mod row;
mod survey;

pub use check::page_ok;
pub use page::{clear_row, fresh_page, next_of, set_next, slot};
pub use putting::put_row;
pub use row::{row_bytes, row_of};
