//! The index: the book of policies, rules, metric documents and resources, on a pair of logs.
#![tactic(auto)]

mod begin;
mod book;
mod calls;
mod catalog;
mod change;
mod holding;
mod index;
mod item;
mod load;
mod reading;
mod refusal;
mod reply;
mod tables;
#[cfg(test)]
mod tests;
mod writing;

pub use front_api::{Command, ControlFault, MetricDoc, Reply};
pub use index::Index;
pub use log_pair::{LogFault, MountFault};
