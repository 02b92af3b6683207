//! The network of the four stages: what a stage is, and the steps of four of them, one after the other.
#![tactic(auto)]

mod fault;
mod giving;
mod incoming;
mod loop_fault;
mod moving;
mod net;
mod room;
mod run;
mod stage;
mod stepping;
mod steps;
mod taking;
mod telling;
mod turns;
mod working;

pub use fault::{TakeFault, WorkFault};
pub use loop_fault::LoopFault;
pub use net::{Net, net_ended};
pub use room::Room;
pub use run::stage_loop;
pub use stage::{Stage, Want};
pub use steps::{Moved, net_step};
pub use turns::{a_run_stops_behind_another, net_turns};
