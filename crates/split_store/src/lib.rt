//! The shelf of a sack: the live metrics with their kept windows and their splits, on a pair of logs and a
//! disk of blocks.
#![tactic(auto)]

mod load;
mod reading;
mod registering;
mod shelf;
#[cfg(test)]
mod tests;
mod turn;
mod write;

pub use shelf::Shelf;
