//! Cuts text into the tokens of the language, with their places.
#![tactic(auto)]

mod front;
mod lexed;
mod lines;
mod piece;
mod words;

pub use front::number_of;
pub use lexed::{Lexed, Span, Stop, first_offset, lex_front};
pub use lines::line_at;
pub use piece::piece_at;
