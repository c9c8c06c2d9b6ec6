//! The posts of a sack that wait for their turn: a numbered list on a pair of logs. In memory are the
//! number and the metric of each post, and no measure.
#![tactic(auto)]

mod contents;
mod fault;
mod incoming;
mod laws;
mod lists;
mod load;
mod mark;
mod posting;
mod reading;

pub use fault::PostFault;
pub use incoming::Incoming;
pub use laws::{empty_log, one_content};
pub use log_pair::{LogFault, MountFault, Place};
pub use mark::Mark;

#[cfg(test)]
mod tests;
