//! Measures and answers as JSON (RFC 8259).
#![tactic(auto)]

mod answer;
mod batch;
mod fault;
mod laws;
mod marks;
mod measures;
mod number;
mod short;
mod text;

pub use answer::write_answer;
pub use batch::read_batch;
pub use fault::{BodyFault, JsonKind};
pub use laws::{one_batch_reading, one_reading, plain_reads_back};
pub use measures::read_measures;

#[cfg(test)]
mod tests;
