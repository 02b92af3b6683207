//! A disk of pages that may crash: what a read gives, and what a crash may leave. And such a disk in
//! memory.
#![tactic(auto)]

mod calls;
mod disk;
mod mem_disk;

pub use calls::Call;
pub use disk::{Addr, Disk, DiskFailed, Page};
pub use mem_disk::{Left, MemDisk};
