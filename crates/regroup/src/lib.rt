//! Regrouping from the first touched bucket on, from the kept window and its anchor alone.
#![tactic(auto)]

mod runs;
mod tallies;
mod touched;
mod turns;
mod work;

pub use touched::changed;
pub use work::prepare;

#[cfg(test)]
mod tests;
