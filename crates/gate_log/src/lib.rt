//! A log of records behind gates, on one disk.
#![tactic(auto)]

mod device;
mod fault;
mod find;
mod first;
mod frame;
mod laws;
mod log;
mod piece;
mod place;
mod scan;

pub use device::make_ready;
pub use fault::{LogFault, MountFault};
pub use first::first_record;
pub use laws::damage_has_one_place;
pub use log::Log;

#[cfg(test)]
mod tests;
