//! What is read of texts.

use calculus::Statement;
use quel_parse::{ParseFault, next_statement};
use std::alloc::Global;

/// What is read of a text from a place on.
#[derive(Clone, Copy, PartialEq, Eq)]
pub enum Answer {
    /// A statement that ends there, and whether it declares `e` over `emp`.
    Statement(usize, bool),
    /// Nothing: no statement follows.
    Nothing,
    /// Something else, refused on this line and at this place.
    Syntax(u32, usize),
    /// Memory was wanting.
    OutOfMemory,
}

/// Whether the statement declares `e` over `emp`.
fn declares(statement: &Statement) -> bool {
    match statement {
        Statement::Range { var, rel } => {
            var.bytes() == b"e".as_slice() && rel.bytes() == b"emp".as_slice()
        }
        _ => false,
    }
}

/// What is read of the text from this place on.
pub fn read_at(alloc: Global, text: &[u8], from: usize) -> Answer {
    match next_statement(alloc, text, from) {
        Ok(Some((statement, end))) => {
            let is_range = declares(&statement);
            drop(statement);
            Answer::Statement(end, is_range)
        }
        Ok(None) => Answer::Nothing,
        Err(ParseFault::Syntax { line, at }) => Answer::Syntax(line, at),
        Err(ParseFault::OutOfMemory) => Answer::OutOfMemory,
    }
}
