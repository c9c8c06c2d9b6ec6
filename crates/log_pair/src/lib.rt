//! A log on one of two disks: a list of records that belongs to one book, with the epoch in which it
//! was made. Of two logs the one with the greater epoch counts.
#![tactic(auto)]

mod choose;
mod faults;
mod header;
mod pair;
mod place;
#[cfg(test)]
mod tests;

pub use gate_log::{LogFault, MountFault};
pub use pair::LogPair;
pub use place::Place;
