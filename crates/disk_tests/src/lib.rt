//! Tests of the way to the disk: sources, sinks and shelves, disks that crash, a folder as a disk, batches,
//! pages and rows.
#![tactic(auto)]

#[cfg(test)]
mod batches;
#[cfg(test)]
mod catalogues;
#[cfg(test)]
mod counting;
#[cfg(test)]
mod creating;
#[cfg(test)]
mod databases;
#[cfg(test)]
mod disks;
#[cfg(test)]
mod files;
#[cfg(test)]
mod folders;
#[cfg(test)]
mod pages;
#[cfg(test)]
mod rows;
#[cfg(test)]
mod shared;
#[cfg(test)]
mod shelves;
#[cfg(test)]
mod stopping;
#[cfg(test)]
mod stores;
#[cfg(test)]
mod streams;
