//! The top call of the program: what its words ask, done over the disks of a store, a source and a sink.
#![tactic(auto)]

mod checking;
mod creating;
mod ending;
mod laws;
mod opening;
mod replaying;
mod task;
#[cfg(test)]
mod tests;
mod top;

pub use task::{Start, Task};
pub use top::run;
