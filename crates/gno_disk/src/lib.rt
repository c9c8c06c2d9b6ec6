//! Disks: a trait with a written meaning and a count of faults, and a disk in memory that meets it
//! as data.
#![tactic(auto)]

mod call;
mod content;
mod counts;
mod disk;
mod file;
mod fusible;
mod memory;
mod since;
mod stop;

pub use disk::Disk;
pub use file::FileDisk;
pub use fusible::Fusible;
pub use memory::MemDisk;

#[cfg(test)]
mod tests;
