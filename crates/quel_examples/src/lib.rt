//! Small texts of the language, on which its definitions are computed. Each function here is a law with no
//! body: its clause says what is read of a text.
#![tactic(auto)]

mod refusing;
mod retrieving;
mod syntax;
mod updating;
mod viewing;

pub use refusing::sessions_refuse;
pub use retrieving::sessions_print_tables;
pub use syntax::{
    bounds_refuse, statements_are_read, tokens_have_bounds, tokens_have_places,
    what_cannot_go_on_is_refused,
};
pub use updating::sessions_update;
pub use viewing::sessions_define;
