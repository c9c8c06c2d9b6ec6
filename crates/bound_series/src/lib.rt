//! The raw values that are kept of a series: a window and the one measure before it. What a turn and
//! a cut leave is what grouping from scratch all accepted measures gives.
#![tactic(auto)]

mod job;
mod laws;
mod merge;
mod raw;
mod settle;

pub use job::{Job, Prepared};
pub use laws::{earliest_is_least, empty_job, one_preparation, points_are_in_order};
pub use raw::{Raw, Touched};
pub use settle::earlier_of;

#[cfg(test)]
mod tests;
