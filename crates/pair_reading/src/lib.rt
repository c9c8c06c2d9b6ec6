//! Reading the records of a pair of logs, one after another, by a book that stands on it.
#![tactic(auto)]

mod reading;

pub use reading::{read_body, since};
