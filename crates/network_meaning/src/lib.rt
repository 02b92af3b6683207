//! The network of four stages: what it means, whatever language they speak, and its laws.
#![tactic(auto)]

mod failing;
mod lawful;
mod laws;
mod rounds;
mod spoken;
mod statements;
mod without_a_room;

pub use failing::a_failed_work_writes_a_front;
pub use lawful::nothing_unlawful_comes;
pub use laws::{
    bytes_are_whole_at_the_end, each_step_keeps_the_bytes, each_step_keeps_the_end,
    some_stage_goes_on, the_turn_is_in_one_place,
};
pub use rounds::turns_lead_on;
pub use spoken::{Spoken, Tiny};
pub use statements::statements_are_finished_in_order;
pub use without_a_room::{acts_have_their_shape, order_needs_no_room};
