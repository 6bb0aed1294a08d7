//! A disk of one file: what a read gives, and what a crash may leave.
//!
//! - [`Disk`] is the contract. Between two syncs each written range, and all past the old end, may hold any bytes after a crash; the
//!   other bytes stay, and the length lies between the synced one and the greatest since. After a sync that succeeds a crash leaves
//!   what a read gives. A call answers Failed only where the disk's count of faults rose.
//! - [`MemDisk`] is a disk in memory that keeps all its calls. It tells its bytes and is honest, chosen calls of it fail, and it gives
//!   images that a crash may leave.
//! - [`FileDisk`] is a file of the system, and the trusted part: it tells nothing of its bytes, and counts each failure.
#![tactic(auto)]

mod disk;
mod file_disk;
mod mem_disk;

pub use disk::{Disk, DiskStop};
pub use file_disk::FileDisk;
pub use mem_disk::MemDisk;

#[cfg(test)]
mod tests;
