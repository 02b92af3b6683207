//! What a run of the stages has printed of a session, wherever it stands and however it ends, by the bytes
//! of the script that were read. The laws here are functions with no body: their clauses speak of the
//! definitions alone.
#![tactic(auto)]

mod ending;
mod stopping;

pub use ending::a_run_prints_its_session;
pub use stopping::what_was_read_was_printed;
