//! Tests of the network: links and spawners, rounds of turns, stages that play a written list, in a line and as processes, one that serves everyone, and the four stages of the program.
#![tactic(auto)]

mod carrier;
#[cfg(test)]
mod driven;
#[cfg(test)]
mod driving;
#[cfg(test)]
mod faults;
mod fickle;
#[cfg(test)]
mod four;
#[cfg(test)]
mod hearing;
#[cfg(test)]
mod links;
#[cfg(test)]
mod messages;
#[cfg(test)]
mod monitoring;
#[cfg(test)]
mod orders;
mod players;
#[cfg(test)]
mod processes;
#[cfg(test)]
mod rounds;
#[cfg(test)]
mod scripts;
#[cfg(test)]
mod serving;
#[cfg(test)]
mod sessions;
#[cfg(test)]
mod streams;
#[cfg(test)]
mod third;
#[cfg(test)]
mod unfit;
