//! Rules by which a metric's name gets an archive policy.
#![tactic(auto)]

mod choice;
mod laws;
mod literals;
mod matching;
mod rule;
#[cfg(test)]
mod tests;

pub use choice::choose;
pub use laws::one_choice;
pub use matching::matches;
pub use rule::Rule;
