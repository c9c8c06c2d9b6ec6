//! What the kinds of aggregation make of the values of a bucket.
#![tactic(auto)]

mod distinct;
mod sums;
mod tally;

pub use tally::Tally;

#[cfg(test)]
mod tests;
