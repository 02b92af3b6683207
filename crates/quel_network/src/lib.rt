//! The language of this program as its four stages speak it.
#![tactic(auto)]

mod ending;
mod session;
mod spoken;

pub use ending::each_step_leaves_less_work;
pub use session::a_script_is_its_session;
pub use spoken::Quel;
