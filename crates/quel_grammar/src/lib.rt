//! The grammar of QUEL: tokens, and which runs of tokens are which statements.
#![tactic(auto)]

mod laws;
mod number;
mod token;

pub use laws::{
    at_most_one_thing_is_read, fronts_begin_statements, statements_end_further,
    tokens_are_at_most_one_statement, what_is_computed_is_read,
};
pub use number::Number;
pub use token::{Fixed, Piece, Token};
