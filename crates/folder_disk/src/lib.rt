//! A disk in a folder of the file system.
#![tactic(auto)]

mod counts;
mod disk;
mod folder;
mod pages;

pub use counts::Counts;
pub use disk::FolderDisk;
