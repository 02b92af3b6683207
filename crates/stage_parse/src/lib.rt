//! The second of the four stages, the parser: from the user's statements to trees that are fit for the
//! database and mean unrestricted what the statements mean for the user.
#![tactic(auto)]

mod arriving;
mod at;
mod checking;
mod counted;
mod cutting;
mod following;
mod judged;
mod judging;
mod parser;
mod refusing;
mod ruling;
mod taking;
mod walk;

pub use checking::checked;
pub use parser::Parser;
