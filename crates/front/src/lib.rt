//! The front of one thread: the index and the sacks of a store, on the disks of its plan.
#![tactic(auto)]

mod back;
mod bench;
mod calls;
mod commands;
mod counts;
mod fault;
mod front;
mod histories;
mod laws;
mod look;
mod made;
mod opening;
mod plan;
mod solo;
#[cfg(test)]
mod tests;

pub use bench::Starved;
pub use counts::Counts;
pub use fault::StoreFault;
pub use laws::{disks_that_work_show_no_fault, ready_disks_are_opened, stores_are_not_damaged};
pub use made::Made;
pub use solo::Solo;
