//! The texts of times and spans.
#![tactic(auto)]

mod fields;
mod moment;
mod print;
mod span;
mod stamp;

pub use print::{seconds_text, span_text, stamp_text};
pub use span::{SpanFault, read_span};
pub use stamp::{TimeFault, read_stamp};

#[cfg(test)]
mod tests;
#[cfg(test)]
mod tokens;
